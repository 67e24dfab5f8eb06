// The text that `play` prints, as a function from a list's bytes: document 01, "The program `play`". The list runs on 64 rows of zeros and
// a fresh state.
#![tactic(auto)]

ghost use Rattle.std.specs.Prelude.{◌≡◌, ◌+◌, ◌≤◌, length, All};
ghost use Rattle.list.specs.Meaning.{run_call};
ghost use Rattle.report.specs.Text.{Put};
ghost use Rattle.report.specs.Page.{Wrote};
ghost use Rattle.report.specs.Report.{start, lines_of, text_of, reported_by, told, tell, report_call};

mod text;

use numbers::{Refusal, refuse};
use text::Page;
use vram::Vram;

/// An item, so many times. A caller learns the length and needs not count the items one by one.
pub fn repeated<T: Copy, const N: usize>(item: T) -> [T; N]
    ensures items { All (λ x. x ≡ item) result }
    ensures length { length result ≡ N }
{
    [item; N]
}

// The text of a list that is not too long, on a page.
fn write_lines(list: &[u8], page: &mut Page)
    requires { (length list.now ≤ 4096) × (page.old.at + 491540 ≤ length page.old.text) }
    ensures { Wrote page.old (lines_of (run_call list.now start)) page.new }
{
    let mut memory = [0u16; 32768];
    let mut serial = [0u16; 256];
    let answer = list::run(Vram::fresh(), &mut memory, &mut serial, list);
    page.lines(answer, &memory);
}

// The text of a list, on a page.
fn write_text(list: &[u8], page: &mut Page)
    requires { page.old.at + 491540 ≤ length page.old.text }
    ensures { Wrote page.old (text_of list.now) page.new }
{
    if 4096 < list.len() {
        return page.bytes(b"too long\n");
    }
    write_lines(list, page);
}

// A text, at the start of a lent buffer, or 15: how many bytes it has.
#[tactic(auto, unfolding(crate::specs::Report::tell))]
fn tell(bytes: &[u8], text: &mut [u8]) -> Result<usize, Refusal>
    ensures { told (reported_by result) text.new ≡ tell bytes.now text.old }
{
    refuse(bytes.len() <= text.len(), Refusal::BufferShort)?;
    text[..bytes.len()].copy_from_slice(bytes);
    Ok(bytes.len())
}

// The text of a list, in a lent buffer: how many bytes it has. 15 where the buffer is too short for it: it then stays as it was.
pub fn report(list: &[u8], text: &mut [u8]) -> Result<usize, Refusal>
    ensures { told (reported_by result) text.new ≡ report_call list.now text.old }
{
    let mut page = Page::empty();
    write_text(list, &mut page);
    tell(page.written(), text)
}
