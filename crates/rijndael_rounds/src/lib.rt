// The rounds of the wide cipher on columns, by lookups in a table that is lent.
#![tactic(auto)]

mod lookups;
mod rounds;

ghost use Rattle.std.specs.Prelude.{◌≡◌};
ghost use Rattle.octets.specs.Octets.{pad_to, tabulate, entry};
ghost use Rattle.rijndael_model.specs.Model.{entry_of, passed};

use crate::rounds::{cipher, turn_of};
use rijndael_model::Way;
use rijndael_schedule::is_round_count;
use rijndael_spec::Width;

// How many columns there are, and how far each row but the first is shifted.
#[derive(Clone, Copy)]
struct Turn {
    columns: usize,
    second: usize,
    third: usize,
    fourth: usize,
}

// What each byte adds to a column on its way, for the rounds to look up: a caller makes it once, and lends it.
pub fn table_into(way: Way, table: &mut [u32; 256])
    ensures { table.new ≡ tabulate 256 (entry_of way) }
{
    match way {
        Way::Forth => crate::lookups::fill_forth(table),
        Way::Back => crate::lookups::fill_back(table),
    }
}

// The columns of a block through the rounds, under a schedule for their way; zeros where no key gives so many rounds. Past the columns
// stand zeros.
pub fn through(
    way: Way,
    width: Width,
    table: &[u32; 256],
    words: &[u32; 120],
    rounds: usize,
    s: [u32; 8],
) -> [u32; 8]
    ensures { result ≡ pad_to 8 (passed way width (entry table.now) words.now rounds s) }
{
    if is_round_count(width, rounds) {
        return cipher(way, turn_of(way, width), table, words, rounds, s);
    }
    [0u32; 8]
}
