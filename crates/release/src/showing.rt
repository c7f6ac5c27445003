// The headers of an image's blocks, as they stand there: of all, by a view of at most 128 blocks at a time, or of one. Under keys also
// what a reader says of each block by itself.
use crate::alone::Block;
use crate::card::Refusal;
use crate::clock::Clock;
use crate::failure::Failure;
use crate::form::Form;
use crate::heads::{Missing, Seen};
use crate::input::Keys;
use crate::output::{Output, Waiting};
use crate::system::System;
use crate::{card, input, lent};
use image_reader::Reader;
use image_reader_tally::Stop;
use std::fs::File;
use streams::Told;

type Blocks = [u8; 65536];

const PLACE: usize = 4;

const FORM: usize = 5;

// The blocks that are asked for.
#[derive(Clone, Copy, Debug, PartialEq, Eq)]
enum Asked {
    All,
    One(usize),
}

impl Asked {
    fn given(rt: &impl System) -> Result<Asked, Told> {
        if input::is_word(rt, PLACE, b"all") {
            return Ok(Asked::All);
        }
        match input::number(rt, PLACE) {
            Some(place) => Ok(Asked::One(place as usize)),
            None => Err(Failure::Place.tell(rt)),
        }
    }
}

// The image, the reader if there are keys, and how far the showing has come: the place of the next block, the check of the one before it,
// whether no block was refused, and the lines that wait.
#[derive(Drop)]
struct Showing<'a> {
    from: &'a File,
    size: usize,
    reader: Option<Reader>,
    asked: Asked,
    place: usize,
    last: [u8; 16],
    right: bool,
    output: Output<'a>,
}

impl Showing<'_> {
    fn blocks(&self) -> usize {
        self.size / 512
    }

    fn is_cut(&self) -> bool {
        self.size % 512 != 0
    }

    // ---- blocks

    // The next block that a view shows: how a reader stops at it is found, and all of it is put.
    fn show_block(&mut self, rt: &impl System, bytes: &[u8]) -> Result<(), Told> {
        let head = image_layout::head_of(octets_block::load(bytes, 0));
        let last = self.last;
        let mut payload = [0u8; 480];
        let stop = self.reader.map(|reader| Block { last, head, bytes }.read(reader, &mut payload));
        let seen = Seen {
            place: self.place,
            head,
            stop,
            alone: self.asked != Asked::All,
            bytes,
            payload: octets_slice::part(&payload, 0, head.len.into()),
        };
        self.output.make_room(rt)?;
        self.output.put(rt, seen)?;
        self.right = self.right && matches!(stop, None | Some(Stop::End));
        self.place = self.place.saturating_add(1);
        self.last = octets_block::load(image_view::check_part(bytes, 0), 0);
        Ok(())
    }

    // The next 128 blocks, or what is left of those up to `end`.
    fn turn(&mut self, rt: &impl System, end: usize, lent: &mut Blocks) -> Result<(), Told> {
        let n = end.saturating_sub(self.place).min(128) * 512;
        if input::fill(rt, self.from, &mut lent[..n])? < n {
            return Err(Failure::Changed.tell(rt));
        }
        let lent = &lent[..n];
        for j in 0..image_view::blocks(lent) {
            self.show_block(rt, image_view::block_part(lent, j))?;
        }
        Ok(())
    }

    fn turns(&mut self, rt: &impl System, end: usize, clock: &mut Clock) -> Result<(), Told> {
        let mut lent = [0u8; 65536];
        for _ in 0..end.saturating_sub(self.place).div_ceil(128) {
            self.turn(rt, end, &mut lent)?;
            clock.tick(rt, self.place as u64);
        }
        Ok(())
    }

    // Shows the blocks up to `end`.
    fn show_to(
        &mut self,
        rt: &impl System,
        end: usize,
        terminal: Option<File>,
    ) -> Result<(), Told> {
        let mut clock = Clock::start(rt, terminal, end as u64);
        let shown = self.turns(rt, end, &mut clock);
        clock.stop();
        shown
    }

    // ---- the end of the image

    // Behind the whole blocks there are as many bytes as there were at the start.
    fn expect_rest(&self, rt: &impl System) -> Result<(), Told> {
        let mut rest = [0u8; 512];
        if input::fill(rt, self.from, &mut rest)? == self.size % 512 {
            return Ok(());
        }
        Err(Failure::Changed.tell(rt))
    }

    // Of a block that is not there, or not whole, there is an object alone.
    fn put_missing(
        &mut self,
        rt: &impl System,
        place: usize,
        refusal: Refusal,
    ) -> Result<(), Told> {
        self.output.make_room(rt)?;
        self.output.put(rt, Missing { place, refusal })?;
        self.output.write(rt)
    }

    // Bytes behind the last whole block are refused with 6, but after the blocks before them have been shown.
    fn refuse_rest(&mut self, rt: &impl System) {
        let blocks = self.blocks();
        let refusal = Refusal::Stopped(Stop::Lent);
        let _ = self.put_missing(rt, blocks, refusal);
        card::tell(rt, blocks as u64, refusal);
    }

    // Whether all was shown, and no block is refused. What was shown before something failed is written.
    fn is_whole(&mut self, rt: &impl System, shown: Result<(), Told>) -> Result<bool, Told> {
        if shown.is_ok() && self.is_cut() {
            self.refuse_rest(rt);
            return Ok(false);
        }
        self.output.write(rt)?;
        shown?;
        Ok(self.right)
    }

    fn show_all(&mut self, rt: &impl System, terminal: Option<File>) -> Result<bool, Told> {
        if self.size == 0 {
            return Err(Failure::Empty.tell(rt));
        }
        let shown = match self.show_to(rt, self.blocks(), terminal) {
            Ok(()) => self.expect_rest(rt),
            failed => failed,
        };
        self.is_whole(rt, shown)
    }

    // ---- one place

    // The check of the block before a place, so that the block there comes next. The first block has sixteen zeros before it.
    fn check_before(&self, rt: &impl System, place: usize) -> Result<[u8; 16], Told> {
        let mut check = [0u8; 16];
        if place == 0 {
            return Ok(check);
        }
        let at = (place as u64).saturating_mul(512).saturating_sub(16);
        input::seek(rt, self.from, at)?;
        if input::fill(rt, self.from, &mut check)? < 16 {
            return Err(Failure::Changed.tell(rt));
        }
        Ok(check)
    }

    // The place is that of no whole block: of the bytes behind the last one, or of none.
    fn show_none(&mut self, rt: &impl System, place: usize) {
        if place == self.blocks() && self.is_cut() {
            self.refuse_rest(rt);
        } else {
            let _ = self.put_missing(rt, place, Refusal::NoPlace);
            card::tell_place(rt, self.blocks() as u64);
        }
    }

    fn show_one(
        &mut self,
        rt: &impl System,
        place: usize,
        terminal: Option<File>,
    ) -> Result<bool, Told> {
        if self.blocks() <= place {
            self.show_none(rt, place);
            return Ok(false);
        }
        self.last = self.check_before(rt, place)?;
        self.place = place;
        let shown = self.show_to(rt, place.saturating_add(1), terminal);
        self.is_whole(rt, shown)
    }
}

// ---- the words

// Without keys there is no reader.
fn reader(rt: &impl System) -> Result<Option<Reader>, Told> {
    if input::has_no_keys(rt) {
        return Ok(None);
    }
    Ok(Some(Keys::read(rt)?.reader()))
}

// Whether all that was asked for was shown, and no block of it is refused.
fn is_shown(rt: &impl System) -> Result<bool, Told> {
    let asked = Asked::given(rt)?;
    let terminal = lent::terminal(rt);
    let reader = reader(rt)?;
    let file = input::open(rt)?;
    let mut lines = Waiting::new();
    let output = Output::new(Form::given(rt, FORM), &mut lines);
    let size = input::size_of(&file);
    let mut showing = Showing {
        from: &file,
        size,
        reader,
        asked,
        place: 0,
        last: [0u8; 16],
        right: true,
        output,
    };
    match asked {
        Asked::All => showing.show_all(rt, terminal),
        Asked::One(place) => showing.show_one(rt, place, terminal),
    }
}

pub fn show_image(rt: &impl System) -> Result<(), Told> {
    if is_shown(rt)? {
        streams::report(rt, b"whole\n");
    }
    Ok(())
}
