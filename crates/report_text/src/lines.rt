// Output lines.
ghost use Rattle.std.specs.Prelude.{◌≡◌, ◌++◌, IfOk, OnOk, codes};
ghost use Rattle.group_rules.specs.Texts.{decimal, inc_text};
ghost use Rattle.report_text.specs.Lines.{output_line};

use crate::names::{put_decimal, put_inc};
use gr_ids::{Blob, Inc, Memory};
use std::alloc::Global;

/// Begins an output line of the script's line with this number.
pub fn begin_line(to: &mut Blob, number: u64) -> Result<(), Memory>
    ensures { OnOk result (to.new ≡ to.old ++ (decimal number ++ codes " ")) }
{
    put_decimal(to, number)?;
    to.append(b" ")
}

/// Begins an output line that tells of an incarnation.
pub fn begin_inc_line(to: &mut Blob, number: u64, inc: Inc) -> Result<(), Memory>
    ensures { OnOk result (to.new ≡ to.old ++ (decimal number ++ codes " " ++ inc_text inc ++ codes " ")) }
{
    begin_line(to, number)?;
    put_inc(to, inc)?;
    to.append(b" ")
}

/// Ends an output line.
pub fn end_line(to: &mut Blob) -> Result<(), Memory>
    ensures { OnOk result (to.new ≡ to.old ++ codes "\n") }
{
    to.append(b"\n")
}

/// An output line of these words, on the line with this number of a script. Linear in the words.
pub fn line_text(alloc: Global, number: u64, words: &[u8]) -> Result<Blob, Memory>
    ensures { IfOk result (λ text. text ≡ output_line number words.now) }
{
    let mut text = Blob::from_vec(Vec::new(alloc));
    begin_line(&mut text, number)?;
    text.append(words)?;
    end_line(&mut text)?;
    Ok(text)
}
