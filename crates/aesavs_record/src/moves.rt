// The state after a line that is taken or refused.
ghost use Rattle.std.specs.Prelude.{◌≡◌};
ghost use Rattle.aesavs_record.specs.Records as spec;

use crate::{Record, Refused, Role, Section, Stage, Standing, role_of};
use aesavs_line::{Field, Way};

impl Standing {
    // The line that is read may not come.
    pub(crate) fn refusal(&self) -> Refused
        ensures { result.line ≡ self.now.lines }
    {
        Refused { line: self.lines }
    }

    // A new section, of which no record is known.
    pub(crate) fn begin_section(&mut self, way: Way)
        ensures { self.new ≡ (spec.marked self.old way).standing }
    {
        self.section = Section { way, kind: None };
        self.stage = Stage::AtRecord;
    }

    // A new record, without IV so far.
    pub(crate) fn begin_record(&mut self, count: u64)
        ensures { self.new ≡ (spec.counted self.old count).standing }
    {
        self.held = Record {
            count,
            key: 0,
            text: 0,
            chained: false,
        };
        self.stage = Stage::AtKey;
    }

    // One more field of the record, if it may come. The second text completes the record, and its section has the kind of its first.
    #[tactic(auto, unfolding(crate::specs::Records::value_step))]
    pub(crate) fn take(&mut self, field: Field, size: usize) -> Result<Option<Record>, Refused>
        ensures standing { self.new ≡ (spec.value_step self.old field size).standing }
        ensures answer { result ≡ (spec.value_step self.old field size).deed }
    {
        let role = role_of(self.section.way, field);
        if !self.takes(role, size) {
            return Err(self.refusal());
        }
        match role {
            Role::KeyOf => {
                self.held.key = size;
                self.stage = Stage::AtIv;
            }
            Role::IvOf => {
                self.held.chained = true;
                self.stage = Stage::AtFirst;
            }
            Role::FirstText => {
                self.held.text = size;
                self.stage = Stage::AtSecond;
            }
            Role::SecondText => {
                self.section.kind = Some(self.held.kind());
                self.stage = Stage::AtRecord;
                return Ok(Some(self.held));
            }
        }
        Ok(None)
    }
}
