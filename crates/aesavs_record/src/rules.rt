// Which line may follow, and the sizes that a value may have.
ghost use Rattle.std.specs.Prelude.{◌≡◌};
ghost use Rattle.aesavs_record.specs.Records as spec;

use crate::{Kind, Record, Role, Stage, Standing};
use aesavs_line::Run;

impl Standing {
    // Whether no record is open.
    pub(crate) fn is_between(&self) -> bool
        ensures { result ≡ spec.between self.now.stage }
    {
        matches!(self.stage, Stage::AtMark | Stage::AtRecord)
    }

    // Whether a field may come: in its place, of a size that it may have, and in a section of its kind.
    #[tactic(auto, unfolding(crate::specs::Records::takes))]
    pub(crate) fn takes(&self, role: Role, size: usize) -> bool
        ensures { result ≡ spec.takes self.now role size }
    {
        follows(self.stage, role)
            && size_fits(self.run, role, size, self.held.text)
            && self.kind_fits(role)
    }

    // Whether the record has an IV exactly if the first record of its section has one. It is tested at the first text: no IV can come after it.
    fn kind_fits(&self, role: Role) -> bool
        ensures { result ≡ spec.kind_fits self.now.run role self.now.section.kind self.now.held.chained }
    {
        match (self.run, role, self.section.kind) {
            (Run::Monte, Role::FirstText, Some(kind)) => kind == self.held.kind(),
            _ => true,
        }
    }
}

impl Record {
    pub(crate) fn kind(&self) -> Kind
        ensures { result ≡ spec.kind_of self.now.chained }
    {
        if self.chained { Kind::Cbc } else { Kind::Ecb }
    }
}

fn follows(stage: Stage, role: Role) -> bool
    ensures { result ≡ spec.follows stage role }
{
    matches!(
        (stage, role),
        (Stage::AtKey, Role::KeyOf)
            | (Stage::AtIv, Role::IvOf | Role::FirstText)
            | (Stage::AtFirst, Role::FirstText)
            | (Stage::AtSecond, Role::SecondText)
    )
}

// Whether a value may have this size; `text` is that of the first text.
fn size_fits(run: Run, role: Role, size: usize, text: usize) -> bool
    ensures { result ≡ spec.size_fits_of run role size text }
{
    match role {
        Role::KeyOf => matches!(size, 16 | 24 | 32),
        Role::IvOf => size == 16,
        Role::FirstText => text_fits(run, size),
        Role::SecondText => size == text,
    }
}

fn text_fits(run: Run, size: usize) -> bool
    ensures { result ≡ spec.text_fits run size }
{
    match run {
        Run::Known => size != 0 && size % 16 == 0,
        Run::Monte => size == 16,
    }
}
