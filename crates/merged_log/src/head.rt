//! The two lines at the head of a log.

ghost use Rattle.std.specs.Prelude.{◌≡◌, ◌+◌, ◌≤◌, ◌++◌, length, take};
ghost use Rattle.outer_io.specs.KnownText.{Wrote};
ghost use Rattle.outer_io.specs.Sinks.{HasBlame};
ghost use Rattle.merged_log.specs.Profiles.{head_text};
ghost use Rattle.log_theory.specs.Words.{line_text};
ghost use Rattle.log_theory.specs.Profiles.{words_in};
ghost use Rattle.log_theory.specs.declared.step.Step.TheVariants.{Head};

use itoa::Buffer;
use log_theory::Profile;
use outer_io::{Failed, Sink};

/// Copies a text into a buffer, and gives the place behind it.
fn append(buffer: &mut [u8], at: usize, text: &[u8]) -> usize
    requires { at + length text.now ≤ length buffer.old }
    ensures place { result ≡ at + length text.now }
    ensures text { take result buffer.new ≡ take at buffer.old ++ text.now }
    ensures len { length buffer.new ≡ length buffer.old }
{
    let end = at + text.len();
    buffer[at..end].copy_from_slice(text);
    end
}

/// The first line of a profile, with its line feed.
fn first_line(profile: Profile) -> &'static [u8]
    ensures text { result.now ≡ line_text (words_in profile Head) }
    ensures few { length result.now ≤ 18 }
{
    match profile {
        Profile::Hinted => b"embedding proof 1\n",
        Profile::Plain => b"embedding proof 2\n",
    }
}

/// Puts the two lines, in one piece. It takes no memory.
pub(crate) fn write_head<S: Sink>(profile: Profile, lines: u64, sink: &mut S) -> Result<(), Failed>
    ensures text { Wrote (S.spot sink.old).steady (S.contents sink.old) (S.contents sink.new) result
        (head_text profile lines) }
    ensures cause { HasBlame S.spot S.rest S.faults S.blamed sink.old sink.new result }
{
    let mut digits = Buffer::new();
    let mut buffer = [0u8; 64];
    let first = append(&mut buffer, 0, first_line(profile));
    let front = append(&mut buffer, first, b"m ");
    let number = append(&mut buffer, front, digits.format(lines).as_bytes());
    let end = append(&mut buffer, number, b"\n");
    sink.put(&buffer[..end])
}
