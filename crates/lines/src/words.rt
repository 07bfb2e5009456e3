// The lines of a sitting that say something.
ghost use Rattle.std.specs.Prelude.{◌≡◌, map, IfOk};
ghost use Rattle.lines.specs.Marks.{before, content, entries_of, noted, texts, words_of};

use std::alloc::{AllocError, Global};

#[derive(Clone, Copy)]
pub struct Entry<'a> {
    // Counted from 1, blank lines and comments with the others.
    pub number: usize,
    // The line without its comment and the blanks around it; it has a word.
    pub text: &'a str,
}

// The line up to the mark that starts a comment.
pub fn uncommented(line: &str) -> &str
    ensures { result.now ≡ before 35 line.now }
{
    match line.split_once('#') {
        Some((before, _)) => before,
        None => line,
    }
}

// The words of a line, apart by blanks.
pub fn words(heap: Global, line: &str) -> Result<Vec<&str>, AllocError>
    ensures { IfOk result (λ v. texts v.items ≡ words_of line.now) }
{
    line.split_whitespace().collect(heap)
}

// The line without its comment and the blanks around it.
fn stripped(line: &str) -> &str
    ensures { result.now ≡ content line.now }
{
    uncommented(line).trim()
}

// The lines that have a word before their comment.
pub fn entries(heap: Global, text: &str) -> Result<Vec<Entry<'_>>, AllocError>
    ensures { IfOk result (λ v. map noted v.items ≡ entries_of text.now) }
{
    let mut entries = Vec::new(heap);
    for (index, line) in text.lines().enumerate() {
        let text = stripped(line);
        if !text.is_empty() {
            entries.push(Entry {
                number: index + 1,
                text,
            })?;
        }
    }
    Ok(entries)
}
