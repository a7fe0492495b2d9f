//! The lines of a batch.

ghost use Rattle.outer_io.specs.KnownText.{Wrote};
ghost use Rattle.outer_io.specs.Sinks.{HasBlame};
ghost use Rattle.whole_program.specs.Texts.{image_text, images_text, verdict_text, verdicts_text};

use crate::verdict::JobVerdict;
use itoa::Buffer;
use outer_io::fault::Failed;
use outer_io::put::put_all;
use outer_io::sink::Sink;

/// Puts a blank and the number of a vertex.
fn put_image<O: Sink>(image: u32, out: &mut O) -> Result<(), Failed>
    ensures text { Wrote (O.spot out.old).steady (O.contents out.old) (O.contents out.new) result
        (image_text image) }
    ensures cause { HasBlame O.spot O.rest O.faults O.blamed out.old out.new result }
{
    let mut digits = Buffer::new();
    put_all(&[b" ", digits.format(image).as_bytes()], out)
}

/// Puts each image, a blank before it.
fn put_images<O: Sink>(images: &[u32], out: &mut O) -> Result<(), Failed>
    ensures text { Wrote (O.spot out.old).steady (O.contents out.old) (O.contents out.new) result
        (images_text images.now) }
    ensures cause { HasBlame O.spot O.rest O.faults O.blamed out.old out.new result }
{
    for i in 0..images.len() {
        put_image(images[i], out)?;
    }
    Ok(())
}

/// Puts the line of the job of this number, from 1.
fn put_verdict<O: Sink>(job: usize, verdict: &JobVerdict, out: &mut O) -> Result<(), Failed>
    ensures text { Wrote (O.spot out.old).steady (O.contents out.old) (O.contents out.new) result
        (verdict_text job verdict.now) }
    ensures cause { HasBlame O.spot O.rest O.faults O.blamed out.old out.new result }
{
    let mut digits = Buffer::new();
    let number = digits.format(job).as_bytes();
    match verdict {
        JobVerdict::Yes(images) => {
            put_all(&[number, b": yes"], out)?;
            put_images(images, out)?;
            out.put(b"\n")
        }
        JobVerdict::Nothing => put_all(&[number, b": none\n"], out),
        JobVerdict::Unknown => put_all(&[number, b": unknown\n"], out),
    }
}

/// Puts a line for each job. It takes no memory, and makes no call where there is no job.
pub(crate) fn put_verdicts<O: Sink>(verdicts: &[JobVerdict], out: &mut O) -> Result<(), Failed>
    ensures text { Wrote (O.spot out.old).steady (O.contents out.old) (O.contents out.new) result
        (verdicts_text verdicts.now) }
    ensures cause { HasBlame O.spot O.rest O.faults O.blamed out.old out.new result }
{
    for i in 0..verdicts.len() {
        put_verdict(i + 1, &verdicts[i], out)?;
    }
    Ok(())
}
