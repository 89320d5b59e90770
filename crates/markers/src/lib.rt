// The marker of a control batch, read and written. Names follow src/protocol/record.rs of rskafka 0.6.0.
#![tactic(auto)]

ghost use Rattle.std.specs.Prelude.{◌≡◌, true, length};
ghost use Rattle.numbers.specs.Exactly.{Exactly};
ghost use Rattle.primitives.specs.Answers.{view_read};
ghost use Rattle.primitives.specs.Stands.{Stands};
ghost use Rattle.layout.specs.declared.ControlMode.{ControlMode};
ghost use Rattle.opening.specs.Answers.{batch_number_of};
ghost use Rattle.opening.specs.Judgement.{marker_in_key, keyed_marker_at};
ghost use Rattle.markers.specs.Markers.{view_marker, key_of, KeyPlace};
ghost use Rattle.markers.specs.Forms.{written_control};
ghost use Rattle.markers.specs.Promises.{FromTypePromise, ReadMarkerPromise, ReadBarePromise, StandsPromise, PutMarkerPromise};

use layout::ControlMode;
use numbers::put;
use opening::BatchFault;
use primitives::Cursor;
use reading::check_records;
use records::{Place, Record, RecordFault, read_count};

// The marker that ends a transaction.
#[derive(Clone, Copy)]
pub enum ControlBatchRecord {
    Abort,
    Commit,
}

// A marker by its type.
impl TryFrom<i16> for ControlBatchRecord {
    type Error = BatchFault;

    ghost try_from_gives = { FromTypePromise };

    fn try_from(t: i16) -> Result<ControlBatchRecord, BatchFault> {
        match t {
            0 => Ok(ControlBatchRecord::Abort),
            1 => Ok(ControlBatchRecord::Commit),
            _ => Err(BatchFault::UnknownControl),
        }
    }
}

impl ControlBatchRecord {
    const VERSION: i16 = 0;

    // Nothing follows it in `s`. A marker that stands alone is refused in either mode.
    #[tactic(auto, unfolding(opening::specs::Judgement::way_of, opening::specs::Judgement::former_way_of))]
    pub fn read(
        mode: ControlMode,
        s: &[u8],
        c: Cursor,
    ) -> Result<(ControlBatchRecord, Cursor), BatchFault>
        ensures { ReadMarkerPromise mode s.now c.at result }
    {
        match ControlBatchRecord::read_bare(s, c) {
            Ok(_) => Err(BatchFault::BareMarker),
            Err(f) => match mode {
                ControlMode::Bare => Err(f),
                ControlMode::Keyed => ControlBatchRecord::read_keyed(s, c),
            },
        }
    }

    // In the form that is withdrawn: version and type stand alone. The version is judged before the type is looked at.
    #[tactic(auto, unfolding(opening::specs::Judgement::bare_marker_at))]
    pub fn read_bare(s: &[u8], c: Cursor) -> Result<(ControlBatchRecord, Cursor), BatchFault>
        ensures { ReadBarePromise s.now c.at result }
    {
        let (version, at_type) = c.read_int16(s)?;
        if version.0 != ControlBatchRecord::VERSION {
            return Err(BatchFault::UnknownControl);
        }
        let (t, next) = at_type.read_int16(s)?;
        let marker = ControlBatchRecord::try_from(t.0)?;
        if next.at < s.len() {
            return Err(BatchFault::Body(RecordFault::BytesLeft));
        }
        Ok((marker, next))
    }

    // The record is judged first, up to the end of `s`, and then its key. What has been judged is not refused when it is
    // read for its key.
    #[tactic(auto, using(crate::proofs::KeyReading::keys))]
    fn read_keyed(s: &[u8], c: Cursor) -> Result<(ControlBatchRecord, Cursor), BatchFault>
        ensures { view_read batch_number_of view_marker result ≡ keyed_marker_at s.now c.at }
    {
        let found = check_records(s, c.at, 1)?;
        let (_, at_fields) = read_count(c, s)?;
        let (record, _) = Record::read(at_fields, s)?;
        ControlBatchRecord::in_key(s, record.key, found.end)
    }

    // The first four bytes of a key, of a record that ends at `end`. A null key has the length -1.
    fn in_key(s: &[u8], key: Place, end: usize) -> Result<(ControlBatchRecord, Cursor), BatchFault>
        requires { KeyPlace s.now key }
        ensures { view_read batch_number_of view_marker result ≡ marker_in_key s.now (key_of key) end }
    {
        if key.len < 4 {
            return Err(BatchFault::UnknownControl);
        }
        let start = key.start as usize;
        let past = start + 4;
        let (marker, _) = ControlBatchRecord::read_bare(&s[..past], Cursor { at: start })?;
        Ok((marker, Cursor { at: end }))
    }

    // Whether a marker, as it is written, stands at the cursor and ends where `s` ends.
    #[tactic(auto, unfolding(layout::specs::Format::grammar_of))]
    pub fn stands(mode: ControlMode, s: &[u8], c: Cursor) -> bool
        ensures { StandsPromise mode s.now c.at result }
    {
        match mode {
            ControlMode::Bare => false,
            ControlMode::Keyed => ControlBatchRecord::keyed_stands(s, c),
        }
    }

    // More is read than is written, so what is read has to stand there as it is written.
    fn keyed_stands(s: &[u8], c: Cursor) -> bool
        ensures { StandsPromise ControlMode.Keyed s.now c.at result }
    {
        let Ok((marker, _)) = ControlBatchRecord::read_keyed(s, c) else {
            return false;
        };
        let bytes = marker.bytes();
        stand(&bytes, s, c.at)
    }

    // Writes it from `at` on, as far as the output goes, and gives the place after it.
    pub fn put(self, output: &mut [u8], at: usize) -> usize
        ensures { PutMarkerPromise self output.old at (record { next = result; output = output.new }) }
    {
        let bytes = self.bytes();
        put(&bytes, output, at)
    }

    // A record whose key is version and type, each of two bytes, with zero deltas, no value and no headers.
    #[tactic(auto, using(crate::proofs::Keyed::keyed_listed))]
    fn bytes(self) -> [u8; 11]
        ensures { result ≡ written_control (view_marker self) }
    {
        match self {
            ControlBatchRecord::Abort => [20, 0, 0, 0, 8, 0, 0, 0, 0, 1, 0],
            ControlBatchRecord::Commit => [20, 0, 0, 0, 8, 0, 0, 0, 1, 1, 0],
        }
    }
}

// Whether these bytes stand from `at` on, and nothing after them.
fn stand(bytes: &[u8], s: &[u8], at: usize) -> bool
    ensures { Exactly (result ≡ true) (Stands s.now at (length s.now) bytes.now) }
{
    match s.get(at..) {
        Some(rest) => rest == bytes,
        None => false,
    }
}
