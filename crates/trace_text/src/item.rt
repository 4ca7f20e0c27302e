//! Writes and reads one item.

ghost use Rattle.std.specs.Prelude.{◌≡◌, ◌++◌, ◌∷◌, OnOk, OnErr, IfOk};
ghost use Rattle.std.specs.Fmt.{decimal};
ghost use Rattle.std.specs.Io.{StartsWith};
ghost use Rattle.std.specs.String.{string_bytes};
ghost use Rattle.escapes.specs.Readings.{IsReadAs};
ghost use Rattle.jvms_machine.specs.Events.{thread_of};
ghost use Rattle.trace_text.specs.Items.{IsItem, item_text, touched_text};
ghost use Rattle.trace_text.specs.Parts.{IsItemOf, word_text, kind_of};

use crate::members::Keys;
use crate::number::number_of;
use crate::variable::{put_variable, variable_of};
use crate::word::Word;
use escapes::{cut_twice, put_method, put_number};
use jvms_machine::machine::ThreadId;
use jvms_machine::trace::Item;
use std::alloc::AllocError;

const SPACE: u8 = b' ';

/// Returns the word of an item.
fn kind_of(item: &Item) -> Word
    ensures { result ≡ kind_of item.now }
{
    match item {
        Item::Read { .. } => Word::Read,
        Item::Write { .. } => Word::Write,
        Item::Acquire { .. } => Word::Acquire,
        Item::Release { .. } => Word::Release,
        Item::Fork { .. } => Word::Fork,
        Item::Join { .. } => Word::Join,
        Item::Enter { .. } => Word::Enter,
        Item::Exit { .. } => Word::Exit,
    }
}

/// Returns the thread of an item.
fn thread_of(item: &Item) -> ThreadId
    ensures { result ≡ thread_of item.now }
{
    match item {
        Item::Read { thread, .. }
        | Item::Write { thread, .. }
        | Item::Acquire { thread, .. }
        | Item::Release { thread, .. }
        | Item::Fork { thread, .. }
        | Item::Join { thread, .. }
        | Item::Enter { thread, .. }
        | Item::Exit { thread, .. } => *thread,
    }
}

/// Appends what an item touches to a text. On an error a part of it may have been appended.
fn put_touched(out: &mut String, item: &Item) -> Result<(), AllocError>
    ensures exact { OnOk result
        (string_bytes out.new ≡ string_bytes out.old ++ touched_text item.now) }
    ensures appended { OnErr result (StartsWith (string_bytes out.new) (string_bytes out.old)) }
{
    match item {
        Item::Read { variable, .. } | Item::Write { variable, .. } => put_variable(out, variable),
        Item::Acquire { reference, .. } | Item::Release { reference, .. } => {
            put_number(out, u64::from(*reference))
        }
        Item::Fork { started, .. } => put_number(out, u64::from(*started)),
        Item::Join { ended, .. } => put_number(out, u64::from(*ended)),
        Item::Enter { method, .. } | Item::Exit { method, .. } => put_method(out, method),
    }
}

/// Appends an item to a text, without the LF that ends its line. On an error a part of it may have been appended.
pub(crate) fn put_item(out: &mut String, item: &Item) -> Result<(), AllocError>
    ensures exact { OnOk result
        (string_bytes out.new ≡ string_bytes out.old ++ item_text item.now) }
    ensures appended { OnErr result (StartsWith (string_bytes out.new) (string_bytes out.old)) }
{
    out.push_str(kind_of(item).text())?;
    out.push_str(" ")?;
    put_number(out, u64::from(thread_of(item)))?;
    out.push_str(" ")?;
    put_touched(out, item)
}

/// Reads what an item touches, and returns the item with this word and this thread. Returns `None` if the text is not
/// what such an item touches.
fn touching<'t>(
    keys: &mut Keys<'t>,
    word: Word,
    thread: ThreadId,
    text: &'t [u8],
) -> Result<Option<Item>, AllocError>
    ensures { IfOk result (IsReadAs (IsItemOf word thread) touched_text text.now) }
{
    Ok(match word {
        Word::Read => variable_of(keys, text)?.map(|variable| Item::Read { thread, variable }),
        Word::Write => variable_of(keys, text)?.map(|variable| Item::Write { thread, variable }),
        Word::Acquire => number_of(text).map(|reference| Item::Acquire { thread, reference }),
        Word::Release => number_of(text).map(|reference| Item::Release { thread, reference }),
        Word::Fork => number_of(text).map(|started| Item::Fork { thread, started }),
        Word::Join => number_of(text).map(|ended| Item::Join { thread, ended }),
        Word::Enter => keys
            .methods
            .read(text)?
            .map(|method| Item::Enter { thread, method }),
        Word::Exit => keys
            .methods
            .read(text)?
            .map(|method| Item::Exit { thread, method }),
    })
}

/// Reads an item from a line. Returns `None` if the line is no item. An item has exactly one spelling.
pub(crate) fn item_of<'t>(keys: &mut Keys<'t>, line: &'t [u8]) -> Result<Option<Item>, AllocError>
    ensures { IfOk result (IsReadAs IsItem item_text line.now) }
{
    let Some((word, thread, text)) = cut_twice(line, SPACE) else {
        return Ok(None);
    };
    let Some(word) = Word::of(word) else {
        return Ok(None);
    };
    let Some(thread) = number_of(thread) else {
        return Ok(None);
    };
    touching(keys, word, thread, text)
}
