// The rectangles of a page, read from their fields: tag 8, length 12, six numbers of two bytes.
ghost use Rattle.std.specs.Prelude.{◌≡◌, ◌<◌, length};
ghost use Rattle.page.specs.Rectangles.{rectangle_of, whole};

use super::Rectangle;
use list::{number_at, sized};

// Whether the field at the head of some bytes is a rectangle's, and is not cut short.
pub(crate) fn whole(field: &[u8]) -> bool
    requires { 0 < length field.now }
    ensures { result ≡ whole field.now }
{
    (field[0] == 8) & sized(field, 12)
}

// The rectangle that a body says.
pub(crate) fn rectangle_of(body: &[u8]) -> Rectangle
    ensures { result ≡ rectangle_of body.now }
{
    Rectangle {
        first_row: number_at(body, 0),
        end_row: number_at(body, 2),
        first_column: number_at(body, 4),
        end_column: number_at(body, 6),
        mask: number_at(body, 8),
        colour: number_at(body, 10),
    }
}
