//! The line of a sum, to the letter.

use journals::Journal;
use log_growth::keep_sum;
use log_theory::Ref;
use std::test::Fail;

#[test]
fn a_sum_names_its_references_in_order(rt: HostRuntime) -> Result<(), Fail> {
    let mut journal = Journal::new(rt.alloc(), 7);
    let refs = [Ref::Line(3), Ref::Shared(5), Ref::Line(1)];
    let name = keep_sum(rt.alloc(), &mut journal, &refs)?;
    let is_first = name.owner == 7 && name.number == 1;
    assert!(rt; is_first && journal.text() == b"p 7.1 3 #5 + 1 + ;\n".as_slice());
    Ok(())
}
