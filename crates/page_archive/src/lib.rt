// The archive of `page`: pages.
// A static library has the exports of its own crate alone, and no crate can stand on one: so each export calls the function of its name below
// and has its clauses again, and adds nothing.
#![tactic(auto)]

ghost use Rattle.std.specs.Prelude.{◌≡◌};
ghost use Rattle.page.specs.Calls.{outcome, page_call};

use page::Paged;

// The joined lists of a page's fills, at the start of the buffer. Persistent: 0 no, any other number yes.
#[unsafe(no_mangle)]
pub extern "C" fn linkshoar_page(
    rows: u32,
    persistent: u32,
    rectangles: &[u8],
    list: &mut [u8],
) -> Paged
    ensures { outcome result list.new ≡ page_call rows persistent rectangles.now list.old }
{
    page::linkshoar_page(rows, persistent, rectangles, list)
}
