//! The text of a book file, written line by line.
ghost use Rattle.std.specs.Prelude.{◌≡◌, ◌+◌, ◌<◌, [], ◌∷◌, ◌++◌, All, OnOk};
ghost use Rattle.std.specs.Fmt.{decimal};
ghost use Rattle.replay.specs.Text.Files.{ended, IsName, name_text, order_text, start_text};
ghost use Rattle.replay.specs.Text.Written.{head_text, line_text};

use itoa::Buffer;
use lin::ShortName;
use sched_program::OutOfMemory;

/// Writes a number in decimal.
fn push_number(text: &mut Vec<u8>, number: usize) -> Result<(), OutOfMemory>
    ensures { OnOk result (text.new.items ≡ text.old.items ++ decimal number) }
{
    let mut buffer = Buffer::new();
    text.extend_from_slice(buffer.format(number).as_bytes())
}

/// Writes the name of an operation.
fn push_name(text: &mut Vec<u8>, name: ShortName) -> Result<(), OutOfMemory>
    requires { IsName name }
    ensures { OnOk result (text.new.items ≡ text.old.items ++ name_text name) }
{
    let id = name.name();
    text.extend_from_slice(&[b'0' + id.thread, b'.', b'0' + id.index])
}

/// Writes the names of an order.
fn push_order(text: &mut Vec<u8>, order: &[ShortName]) -> Result<(), OutOfMemory>
    requires { All IsName order.now }
    ensures { OnOk result (text.new.items ≡ text.old.items ++ order_text order.now) }
{
    let Some((first, rest)) = order.split_first() else {
        return text.extend_from_slice(b"-");
    };
    push_name(text, *first)?;
    for id in rest {
        text.extend_from_slice(b",")?;
        push_name(text, *id)?;
    }
    Ok(())
}

/// Writes the first line of a file with `entries` entries.
pub fn push_head(text: &mut Vec<u8>, entries: usize) -> Result<(), OutOfMemory>
    ensures { OnOk result (text.new.items ≡ text.old.items ++ ended (head_text entries ∷ [])) }
{
    text.extend_from_slice(b"treesched book 1 entries ")?;
    push_number(text, entries)?;
    text.extend_from_slice(b"\n")?;
    Ok(())
}

/// Writes the line of the first entry.
pub fn push_start(text: &mut Vec<u8>) -> Result<(), OutOfMemory>
    ensures { OnOk result (text.new.items ≡ text.old.items ++ ended (start_text ∷ [])) }
{
    text.extend_from_slice(b"- - -\n")
}

/// Writes the line of an entry after the first.
#[tactic(auto, unfolding(crate::specs::Text::Written::line_text))]
pub fn push_line(
    text: &mut Vec<u8>,
    parent: usize,
    thread: u8,
    order: &[ShortName],
) -> Result<(), OutOfMemory>
    requires thread { thread < 10 }
    requires names { All IsName order.now }
    ensures { OnOk result (text.new.items ≡ text.old.items ++ ended (line_text parent thread order.now ∷ [])) }
{
    push_number(text, parent)?;
    text.extend_from_slice(&[b' ', b'0' + thread, b' '])?;
    push_order(text, order)?;
    text.extend_from_slice(b"\n")
}
