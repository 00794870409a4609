//! What the items of a message are to the kept replies.

use bumpalo::Bump;
use cases_text::{CaseFault, Page};
use gw_kept::{Class, Kept, Point, Source};
use gw_msg::{Message, Sender, read_message};

/// A number behind a word.
fn write_place(word: &[u8], place: usize, out: &mut Page) {
    out.put(word);
    out.number(place as u64);
}

fn write_class(class: Class, out: &mut Page) {
    match class {
        Class::New => out.put(b"new"),
        Class::Repeat(Source::Kept(place)) => write_place(b"repeat of kept ", place, out),
        Class::Repeat(Source::Place(place)) => write_place(b"repeat of new ", place, out),
        Class::Over => out.put(b"over"),
        Class::Nothing => out.put(b"nothing"),
    }
    out.put(b"\n");
}

/// What an item is to them: a request by its sender and number, an acknowledgement by how many ranges it has.
fn write_point(point: &Point<'_>, out: &mut Page) {
    match point {
        Point::Request(key) => {
            out.put(b"request ");
            out.encoded(key.mid().as_bytes());
            out.put(b" ");
            out.number(u64::from(key.id()));
            out.put(b": ");
        }
        Point::Ack(removal) => {
            out.put(b"acknowledgement ");
            for range in removal.ranges.as_slice() {
                out.number(u64::from(range.first));
                out.put(b"-");
                out.number(u64::from(range.last));
                out.put(b" ");
            }
            out.put(b"of ");
            out.encoded(removal.mid.mid().as_bytes());
            out.put(b": ");
        }
        Point::Nothing => out.put(b"no request: "),
    }
}

fn write_message(kept: &Kept, message: &Message<'_>, out: &mut Page) -> Result<(), CaseFault> {
    let mut points = Vec::new(out.alloc());
    for item in message.items.as_slice() {
        points.push(Point::of(message.mid.again(), item))?;
    }
    let Ok(classes) = kept.classify(out.alloc(), points.as_slice()) else {
        return Err(CaseFault::NoMemory);
    };
    for (point, class) in points.iter().zip(classes.as_slice().iter()) {
        write_point(point, out);
        write_class(*class, out);
    }
    Ok(())
}

/// The class of each item of a message.
pub fn classify(kept: &Kept, text: &[u8], out: &mut Page) -> Result<(), CaseFault> {
    let arena = Bump::new(out.alloc());
    match read_message(&arena, text) {
        Ok(message) => write_message(kept, &message, out),
        Err(_) => Err(CaseFault::Form),
    }
}
