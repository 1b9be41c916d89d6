//! What a host knows of each cell's word.

ghost use Rattle.std.specs.Prelude.{◌≡◌, ◌&&◌, true, false, slice_set};
ghost use Rattle.pm_table.specs.Cell.{place_of, IsCell};
ghost use Rattle.pm_host.specs.Image.{is_unconfirmed, known_held, words_held, standing_held};
ghost use Rattle.pm_host.specs.Possible.{is_possible, has_room, only};
ghost use Rattle.pm_host.specs.Known.{HasPlaces, known_possible, known_standing, known_after, nothing_known};
ghost use Rattle.pm_host.specs.Marks.{Put, Good, Restored};
ghost use Rattle.pm_host.specs.Memory.{IsWordsImage, IsKnown, IsStandingImage};

use crate::standing_image::StandingImage;
use crate::words_image::WordsImage;
use arrayvec::ArrayVec;
use pm_table::Cell;

/// The words that a cell may hold, as far as the host knows.
#[derive(Clone, Debug, PartialEq, Eq, Drop)]
pub enum Possible {
    /// Any word: the host has no good answer for the cell since it started, saw a restart or, if the
    /// cell is an output's, last began to send a restore.
    Any,
    /// One of these: the word of the last good answer for the cell, and then the words that were put
    /// on the wire for it since, each once, in the order in which they first came.
    Words(ArrayVec<u16, 16>),
}

impl Possible {
    /// Whether the cell may hold this word.
    pub fn allows(&self, word: u16) -> bool
        ensures { result ≡ is_possible word self.now }
    {
        match self {
            Possible::Any => true,
            Possible::Words(words) => words.contains(&word),
        }
    }
}

/// What the host says of a cell's word.
#[derive(Clone, Copy, Debug, PartialEq, Eq)]
pub enum Standing {
    /// The host read this word from the cell, and has since begun no write of the cell and, if it is
    /// an output's, no restore.
    Confirmed(u16),
    /// The host started after its last read of the cell, or has since begun to write the cell or, if
    /// it is an output's, to send a restore, or never read it.
    Unknown,
}

/// What the host knows of each cell, as plain numbers; a cell stands at `Cell::place`. It is laid out as callers in C
/// keep it, since every call works on a caller's memory in place and copies none of it.
#[repr(C)]
#[derive(Debug, Drop)]
pub struct Knowledge {
    /// The words that each cell may hold.
    pub possible: [WordsImage; Cell::PLACES],
    /// What is said of each cell's word.
    pub standing: [StandingImage; Cell::PLACES],
    /// 1 if a restart of the device was seen.
    pub seen: u16,
}

impl Knowledge {
    /// Forgets all.
    #[tactic(auto, unfolding(crate::specs::Image::known_held, crate::specs::Known::nothing_known, crate::specs::Known::all_any, crate::specs::Known::all_unknown))]
    pub(crate) fn clear(&mut self)
        ensures cleared { known_held self.new ≡ nothing_known }
        ensures written { IsKnown self.new }
    {
        self.possible.fill(WordsImage::ANY);
        self.standing.fill(StandingImage::UNKNOWN);
        self.seen = 0;
    }

    /// Says that there is a place for each cell. Does nothing.
    #[tactic(auto, unfolding(crate::specs::Image::known_held))]
    pub(crate) fn has_places(&self)
        ensures { HasPlaces (known_held self.now) }
    {}

    /// The words that a cell may hold, as `Host::possible` says.
    #[tactic(auto, unfolding(crate::specs::Image::known_held))]
    pub fn possible(&self, cell: Cell) -> &WordsImage
        requires { IsCell 8 cell }
        ensures held { words_held result.now ≡ known_possible (known_held self.now) cell }
        ensures written { IsKnown self.now → IsWordsImage result.now }
    {
        &self.possible[cell.place()]
    }

    /// What is known of a cell's word, as `Host::standing` says.
    #[tactic(auto, unfolding(crate::specs::Image::known_held))]
    pub fn standing(&self, cell: Cell) -> StandingImage
        requires { IsCell 8 cell }
        ensures held { standing_held result ≡ known_standing (known_held self.now) cell }
        ensures written { IsKnown self.now → IsStandingImage result }
    {
        self.standing[cell.place()]
    }

    /// Whether an order of this word may be open: the cell may hold it, and no word of the cell is confirmed.
    #[tactic(auto, unfolding(crate::specs::Image::known_held))]
    pub(crate) fn is_open(&self, cell: Cell, word: u16) -> bool
        requires { IsCell 8 cell }
        ensures { result ≡ (is_possible word (known_possible (known_held self.now) cell)
            && is_unconfirmed (known_standing (known_held self.now) cell)) }
    {
        let place = cell.place();
        self.possible[place].allows(word) && self.standing[place].standing() == Standing::Unknown
    }

    /// Whether a restart of the device was seen, as `Host::restart_seen` says.
    #[tactic(auto, unfolding(crate::specs::Image::known_held))]
    pub fn restart_seen(&self) -> bool
        ensures { result ≡ (known_held self.now).seen }
    {
        self.seen == 1
    }

    // This is known of the cell now.
    #[tactic(auto, unfolding(crate::specs::Image::known_held))]
    fn set(&mut self, cell: Cell, words: WordsImage, said: StandingImage)
        requires { IsCell 8 cell }
        ensures possible { (known_held self.new).possible
            ≡ slice_set (known_held self.old).possible (place_of cell) (words_held words) }
        ensures standing { (known_held self.new).standing
            ≡ slice_set (known_held self.old).standing (place_of cell) (standing_held said) }
        ensures seen { (known_held self.new).seen ≡ (known_held self.old).seen }
        ensures words { known_possible (known_held self.new) cell ≡ words_held words }
        ensures said { known_standing (known_held self.new) cell ≡ standing_held said }
        ensures written { IsKnown self.old → IsWordsImage words → IsStandingImage said → IsKnown self.new }
    {
        let place = cell.place();
        self.possible[place] = words;
        self.standing[place] = said;
    }

    /// A write of the cell begins to be sent, if its word has room among those that the cell may hold;
    /// says whether it has.
    #[tactic(auto, unfolding(crate::specs::Image::known_held))]
    pub(crate) fn put(&mut self, cell: Cell, word: u16) -> bool
        requires { IsCell 8 cell }
        ensures room { result ≡ has_room word (known_possible (known_held self.old) cell) }
        ensures after { result ≡ true → known_held self.new ≡ known_after (known_held self.old) (Put cell word) }
        ensures listed { result ≡ true → is_possible word (known_possible (known_held self.new) cell) ≡ true }
        ensures unknown { result ≡ true → known_standing (known_held self.new) cell ≡ Standing.Unknown }
        ensures full { result ≡ false → self.new ≡ self.old }
        ensures written { IsKnown self.old → IsKnown self.new }
    {
        let mut words = *self.possible(cell);
        if !words.join(word) {
            return false;
        }
        self.set(cell, words, StandingImage::UNKNOWN);
        true
    }

    /// A good answer for the cell.
    #[tactic(auto, unfolding(crate::specs::Image::known_held, crate::specs::Known::all_any))]
    pub(crate) fn good(&mut self, cell: Cell, word: u16)
        requires { IsCell 8 cell }
        ensures after { known_held self.new ≡ known_after (known_held self.old) (Good cell word) }
        ensures alone { known_possible (known_held self.new) cell ≡ only word }
        ensures written { IsKnown self.old → IsKnown self.new }
    {
        if !self.possible(cell).allows(word) {
            self.possible.fill(WordsImage::ANY);
            self.seen = 1;
        }
        let said = StandingImage {
            is_confirmed: 1,
            word,
        };
        self.set(cell, WordsImage::only(word), said);
    }

    /// A restore of the outputs' settings begins to be sent: nothing is known of their cells, and what is
    /// known of WRITE_PROTECT stays.
    #[tactic(auto, unfolding(crate::specs::Image::known_held, crate::specs::Known::nothing_known))]
    pub(crate) fn restored(&mut self)
        ensures after { known_held self.new ≡ known_after (known_held self.old) Restored }
        ensures written { IsKnown self.old → IsKnown self.new }
    {
        let (words, said) = (*self.possible(Cell::Protect), self.standing(Cell::Protect));
        let seen = self.seen;
        self.clear();
        self.set(Cell::Protect, words, said);
        self.seen = seen;
    }
}
