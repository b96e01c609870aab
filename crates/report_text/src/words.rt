// Words as printed lines.
ghost use Rattle.std.specs.Prelude.{◌≡◌, ◌++◌, ◌∷◌, [], codes, map, IfOk, OnOk};
ghost use Rattle.std.specs.Fmt.{decimal};
ghost use Rattle.report_text.specs.Texts.{line_text, numbers_text, each_behind};

use blink_base::List;
use itoa::Buffer;
use std::alloc::{AllocError, Global};

// The words with a blank between each two, and a line feed behind them.
pub(crate) fn line_text(
    alloc: Global,
    first: &[u8],
    others: &[&[u8]],
) -> Result<List<u8>, AllocError>
    ensures { IfOk result (λ text. text ≡ line_text (first.now ∷ map (λ word. word.now) others.now)) }
{
    let mut text = Vec::new(alloc);
    add_line(&mut text, first, others)?;
    Ok(List::from_vec(text))
}

// Adds a line of words.
pub(crate) fn add_line(text: &mut Vec<u8>, first: &[u8], others: &[&[u8]]) -> Result<(), AllocError>
    ensures { OnOk result (text.new.items ≡ text.old.items ++ line_text (first.now ∷ map (λ word. word.now) others.now)) }
{
    text.extend_from_slice(first)?;
    add_words(text, others)?;
    text.push(b'\n')?;
    Ok(())
}

// Adds a blank and a word.
pub(crate) fn add_word(text: &mut Vec<u8>, word: &[u8]) -> Result<(), AllocError>
    ensures { OnOk result (text.new.items ≡ text.old.items ++ (codes " " ++ word.now)) }
{
    text.push(b' ')?;
    text.extend_from_slice(word)?;
    Ok(())
}

// Adds words, with a blank before each.
pub(crate) fn add_words(text: &mut Vec<u8>, words: &[&[u8]]) -> Result<(), AllocError>
    ensures { OnOk result (text.new.items ≡ text.old.items ++ each_behind (codes " ") (map (λ word. word.now) words.now)) }
{
    for word in words {
        add_word(text, word)?;
    }
    Ok(())
}

// Adds a number.
pub(crate) fn add_number(text: &mut Vec<u8>, number: u32) -> Result<(), AllocError>
    ensures { OnOk result (text.new.items ≡ text.old.items ++ decimal number) }
{
    let mut buffer = Buffer::new();
    text.extend_from_slice(buffer.format(number).as_bytes())?;
    Ok(())
}

// Adds numbers, each behind a mark.
fn add_numbers(text: &mut Vec<u8>, mark: u8, numbers: &[u32]) -> Result<(), AllocError>
    ensures { OnOk result (text.new.items ≡ text.old.items ++ each_behind (mark ∷ []) (map decimal numbers.now)) }
{
    for number in numbers {
        text.push(mark)?;
        add_number(text, *number)?;
    }
    Ok(())
}

// The numbers with a mark between each two.
pub(crate) fn numbers_text(alloc: Global, mark: u8, numbers: &[u32]) -> Result<Vec<u8>, AllocError>
    ensures { IfOk result (λ text. text.items ≡ numbers_text (mark ∷ []) numbers.now) }
{
    let mut text = Vec::new(alloc);
    let Some((first, others)) = numbers.split_first() else {
        return Ok(text);
    };
    add_number(&mut text, *first)?;
    add_numbers(&mut text, mark, others)?;
    Ok(text)
}
