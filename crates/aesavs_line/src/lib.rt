// One line of a response file of AESAVS, and of the line before it that says which run the file is of.
#![tactic(auto)]

ghost use Rattle.std.specs.Prelude.{◌≡◌, [], ◌∷◌};
ghost use Rattle.std.specs.List.{find};
ghost use Rattle.std.specs.Option.{unwrap_or};
ghost use Rattle.aesavs_line.specs.Lines.{count_of, field_line, mark_line, line_of, name_of, starts, value_of, stripped};
ghost use Rattle.aesavs_line.specs.declared.Field.TheVariants.{Key, Iv, Plaintext, Ciphertext};

use octets_slice::part;
use text_decimal::decimal;

// The run that a file is of: known answers or Monte Carlo.
#[derive(Clone, Copy, Debug, PartialEq, Eq)]
pub enum Run {
    Known,
    Monte,
}

// What the records of a section do.
#[derive(Clone, Copy, Debug, PartialEq, Eq)]
pub enum Way {
    Encrypting,
    Decrypting,
}

// What a record has in addition to its COUNT.
#[derive(Clone, Copy, Debug, PartialEq, Eq)]
pub enum Field {
    Key,
    Iv,
    Plaintext,
    Ciphertext,
}

// What a line is. The value of a field is what follows its name: `value` returns it.
#[derive(Clone, Copy, Debug, PartialEq, Eq)]
pub enum Line {
    Skipped,
    Opens(Run),
    Marks(Way),
    Counts(u64),
    Value(Field),
    Outside,
}

// What a line without its end is.
#[tactic(auto, using(crate::proofs::Laws::fronts), unfolding(crate::specs::Lines::line_of))]
pub fn read_line(line: &[u8]) -> Line
    ensures { result ≡ line_of line.now }
{
    if line.len() > 4096 {
        return Line::Outside;
    }
    if line.is_empty() || line.starts_with(b"#") {
        return Line::Skipped;
    }
    if let Some(digits) = line.strip_prefix(b"COUNT = ") {
        return counted(digits);
    }
    mark_line(line)
}

// The word of a field's line that means bytes; nothing before it is taken.
#[tactic(auto, using(std::proofs::lemmas::List::take_rest), unfolding(crate::specs::Lines::value_of))]
pub fn value(line: &[u8], field: Field) -> &[u8]
    ensures { result.now ≡ value_of line.now field }
{
    part(line, name_of(field).len(), line.len())
}

// A line without the carriage return that may end it.
#[tactic(auto, using(crate::proofs::Laws::last_is), unfolding(crate::specs::Lines::stripped))]
pub fn strip(line: &[u8]) -> &[u8]
    ensures { result.now ≡ stripped line.now }
{
    line.strip_suffix(b"\r").unwrap_or(line)
}

#[tactic(auto, unfolding(crate::specs::Lines::count_of))]
fn counted(digits: &[u8]) -> Line
    ensures { result ≡ count_of digits.now }
{
    decimal(digits, u64::MAX).map_or(Line::Outside, Line::Counts)
}

fn mark_line(line: &[u8]) -> Line
    ensures { result ≡ mark_line line.now }
{
    match mark(line) {
        Some(mark) => mark,
        None => field_line(line),
    }
}

// The words and the marks that are whole lines.
#[tactic(auto, using(crate::proofs::Laws::words), unfolding(crate::specs::Lines::mark_line))]
fn mark(line: &[u8]) -> Option<Line>
    ensures { unwrap_or result (field_line line.now) ≡ mark_line line.now }
{
    match line {
        b"kat" => Some(Line::Opens(Run::Known)),
        b"mct" => Some(Line::Opens(Run::Monte)),
        b"[ENCRYPT]" => Some(Line::Marks(Way::Encrypting)),
        b"[DECRYPT]" => Some(Line::Marks(Way::Decrypting)),
        _ => None,
    }
}

fn field_line(line: &[u8]) -> Line
    ensures { result ≡ field_line line.now }
{
    match field_of(line) {
        Some(field) => Line::Value(field),
        None => Line::Outside,
    }
}

// The field whose name a line begins with.
fn field_of(line: &[u8]) -> Option<Field>
    ensures { result ≡ find (λ field. starts (name_of field) line.now) (Key ∷ Iv ∷ Plaintext ∷ Ciphertext ∷ []) }
{
    [Field::Key, Field::Iv, Field::Plaintext, Field::Ciphertext]
        .iter()
        .copied()
        .find(|field| is_of(line, *field))
}

#[tactic(auto, using(crate::proofs::Laws::same_turned))]
fn is_of(line: &[u8], field: Field) -> bool
    ensures { result ≡ starts (name_of field) line.now }
{
    line.starts_with(name_of(field))
}

// What a field's line begins with: its name, and the sign between two spaces.
fn name_of(field: Field) -> &'static [u8]
    ensures { result.now ≡ name_of field }
{
    match field {
        Field::Key => b"KEY = ",
        Field::Iv => b"IV = ",
        Field::Plaintext => b"PLAINTEXT = ",
        Field::Ciphertext => b"CIPHERTEXT = ",
    }
}
