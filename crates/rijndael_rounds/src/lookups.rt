// A table of words for each way, and a column looked up in one.
ghost use Rattle.std.specs.Prelude.{◌≡◌, ◌<◌};
ghost use Rattle.octets.specs.Octets.{tabulate, entry};
ghost use Rattle.aes_sbox.specs.Sbox.{s_box, inv_s_box};
ghost use Rattle.aes_mix.specs.Mixing.{mixed_entry, inv_mixed_entry};
ghost use Rattle.aes_words.specs.Columns.{sub_mix_column};

use aes_mix::{inv_mix_column, mix_column};
use aes_sbox::{inv_table, table};
use aes_words::{join, rot_three, rot_two, rot_word};

// Each byte substituted, and mixed as the first of a column.
pub fn fill_forth(out: &mut [u32; 256])
    ensures { out.new ≡ tabulate 256 (mixed_entry s_box) }
{
    *out = [0u32; 256];
    let sbox = table();
    for k in 0..256 {
        out[k] = mix_column(join(sbox[k], 0, 0, 0));
    }
}

pub fn fill_back(out: &mut [u32; 256])
    ensures { out.new ≡ tabulate 256 (inv_mixed_entry inv_s_box) }
{
    *out = [0u32; 256];
    let sbox = inv_table();
    for k in 0..256 {
        out[k] = inv_mix_column(join(sbox[k], 0, 0, 0));
    }
}

// A column from the bytes that the shift of rows brings there: one of each of four columns.
pub fn column(table: &[u32; 256], a: u32, b: u32, c: u32, d: u32) -> u32
    ensures { result ≡ sub_mix_column (entry table.now) a b c d }
{
    let p = word_at(table, a / 16777216 % 256);
    let q = rot_three(word_at(table, b / 65536 % 256));
    let u = rot_two(word_at(table, c / 256 % 256));
    let v = rot_word(word_at(table, d % 256));
    (p ^ q) ^ (u ^ v)
}

fn word_at(table: &[u32; 256], x: u32) -> u32
    requires { x < 256 }
    ensures { result ≡ entry table.now x }
{
    table[x as usize]
}
