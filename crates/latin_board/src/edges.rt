//! The numbering of the edge clues round a grid.

ghost use Rattle.std.specs.Prelude.{◌≡◌, ◌+◌, ◌*◌, ◌<◌, IfSome};
ghost use Rattle.latin_board.specs.Edges.{edge_place, edge_xy};

use crate::size::Size;

/// The number of the edge clue at (x, y), where the squares have x and y from 0 to w - 1.
///
/// It is x for (x, -1) above the grid, w + x for (x, w) below it, 2w + y for (-1, y) left of it and 3w + y for (w, y)
/// right of it, and `None` elsewhere, corners included.
#[tactic(auto, using(crate::proofs::EdgePlaces::place_leads_back, crate::proofs::EdgePlaces::place_is_within))]
pub fn edge_place(size: Size, x: i8, y: i8) -> Option<u8>
    ensures value { result ≡ edge_place size x y }
    ensures within { IfSome result (λ place. place < 4 * size) }
    ensures back { IfSome result (λ place. edge_xy size place ≡ (x, y)) }
{
    place_at(size, x, y)
}

// The number of the place at (x, y).
fn place_at(size: Size, x: i8, y: i8) -> Option<u8>
    ensures value { result ≡ edge_place size x y }
{
    let width = size.get() as i8;
    if 0 <= x && x < width {
        if y == -1 {
            return Some(x as u8);
        }
        if y == width {
            return Some((width + x) as u8);
        }
    }
    if 0 <= y && y < width {
        if x == -1 {
            return Some((2 * width + y) as u8);
        }
        if x == width {
            return Some((3 * width + y) as u8);
        }
    }
    None
}

/// Where the edge clue of this number is, as (x, y); the number is below four times the width.
///
/// `edge_place` gives the number back.
pub fn edge_xy(size: Size, place: u8) -> (i8, i8)
    requires { place < 4 * size }
    ensures value { result ≡ edge_xy size place }
    ensures back { edge_place size result.0 result.1 ≡ Some place }
{
    let width = size.get();
    if place < width {
        (place as i8, -1)
    } else if place < 2 * width {
        ((place - width) as i8, width as i8)
    } else if place < 3 * width {
        (-1, (place - 2 * width) as i8)
    } else {
        (width as i8, (place - 3 * width) as i8)
    }
}
