//! The calls of the tests, without contracts: what a test says is run, and no proof carries the calls'
//! contracts.

use crate::answer::pm_packet_read_answer;
use crate::host::{
    pm_host_check, pm_host_clear, pm_host_learn, pm_host_new, pm_host_new_with, pm_host_order,
    pm_host_order_microvolts, pm_host_restart, pm_host_restore, pm_host_store,
};
use crate::known::{pm_host_confirmed_word, pm_host_possible_words, pm_host_restart_seen};
use crate::known_cells::pm_host_known_cells;
use crate::limits::{
    pm_host_band, pm_host_limits, pm_host_limits_state, pm_host_no_limits, pm_host_set_limits,
};
use crate::names::{pm_end_name, pm_refusal_name};
use crate::other_read::{pm_read_block, pm_read_plain};
use crate::packet::{pm_packet_read_request, pm_packet_read_write, pm_packet_write};
use crate::rail::pm_host_rail;
use crate::told::{pm_host_frame, pm_host_read_ended, pm_host_write_ended};
use crate::voltages::{pm_at_least, pm_at_most, pm_host_format, pm_microvolts, pm_nearest_word};
use pm_host::{HostImage, StandingImage, WordsImage};
use pm_memory::answer::PayloadImage;
use pm_memory::known_cells::{KnownCell, KnownCells};
use pm_memory::limits::BandImage;
use pm_memory::names::NameImage;
use pm_memory::other_read::BlockImage;
use pm_memory::packet::PacketImage;
use pm_memory::rail::RailImage;
use pm_memory::{FormatNumbers, GuardImage, LimitsImage, RegistersImage, SendingImage};
use pm_table::Cell;

pub(super) const NOTHING: SendingImage = SendingImage {
    kind: 9,
    length: 9,
    answer: 9,
    unused: 9,
    bytes: [9; 16],
};

pub(super) const PACKET: PacketImage = PacketImage {
    kind: 9,
    page: 9,
    code: 9,
    count: 9,
    word: 9,
};

// Zeros, which are no host.
pub(super) fn no_host() -> GuardImage {
    GuardImage {
        host: HostImage::blank(),
        registers: RegistersImage {
            vout_max: 0,
            vout_margin_high: 0,
            vout_margin_low: 0,
            vout_min: 0,
        },
        unused: [0; 3],
        limits: [LimitsImage { least: 0, most: 0 }; 8],
    }
}

// A host with two outputs and at most this many passes, of which no limits are known.
pub(super) fn bare(passes: u8) -> GuardImage {
    let mut image = no_host();
    let _ = pm_host_new(&mut image, 0x58, 2, passes);
    image
}

// A host with two outputs that are said to have no limits.
pub(super) fn host(passes: u8) -> GuardImage {
    let mut image = bare(passes);
    let _ = no_limits(&mut image, 0);
    let _ = no_limits(&mut image, 1);
    image
}

// A host of a part that has these of VOUT_MAX, both margins and VOUT_MIN.
pub(super) fn host_with(passes: u8, has: [u8; 4]) -> GuardImage {
    let mut image = no_host();
    let registers = RegistersImage {
        vout_max: has[0],
        vout_margin_high: has[1],
        vout_margin_low: has[2],
        vout_min: has[3],
    };
    let _ = pm_host_new_with(&mut image, 0x58, 2, passes, &registers);
    let _ = no_limits(&mut image, 0);
    let _ = no_limits(&mut image, 1);
    image
}

// The frame that is being sent.
pub(super) fn sending(image: &GuardImage) -> SendingImage {
    let mut frame = NOTHING;
    let _ = pm_host_frame(image, &mut frame);
    frame
}

pub(super) fn new(image: &mut GuardImage, address: u8, outputs: u8, passes: u8) -> u8 {
    pm_host_new(image, address, outputs, passes)
}

pub(super) fn order(image: &mut GuardImage, output: u8, code: u8, word: u16) -> u8 {
    pm_host_order(image, output, code, word)
}

pub(super) fn order_micro(image: &mut GuardImage, output: u8, code: u8, microvolts: i64) -> u8 {
    pm_host_order_microvolts(image, output, code, microvolts)
}

pub(super) fn check(image: &mut GuardImage, output: u8, code: u8) -> u8 {
    pm_host_check(image, output, code)
}

pub(super) fn learn(image: &mut GuardImage, output: u8) -> u8 {
    pm_host_learn(image, output)
}

pub(super) fn clear(image: &mut GuardImage, output: u8) -> u8 {
    pm_host_clear(image, output)
}

pub(super) fn store(image: &mut GuardImage) -> u8 {
    pm_host_store(image)
}

pub(super) fn restore(image: &mut GuardImage) -> u8 {
    pm_host_restore(image)
}

pub(super) fn restart(image: &mut GuardImage) -> u8 {
    pm_host_restart(image)
}

pub(super) fn finished(image: &mut GuardImage, acked: u8) -> (u16, u16) {
    let step = pm_host_write_ended(image, acked);
    (step.kind, step.word)
}

pub(super) fn got(image: &mut GuardImage, bytes: &[u8]) -> (u16, u16) {
    let step = pm_host_read_ended(image, bytes);
    (step.kind, step.word)
}

// The number, and what was said: 7 if nothing was.
pub(super) fn standing(image: &GuardImage, output: u8, code: u8) -> (u8, u16, u16) {
    let mut said = StandingImage {
        is_confirmed: 7,
        word: 7,
    };
    let number = pm_host_confirmed_word(image, output, code, &mut said);
    (number, said.is_confirmed, said.word)
}

pub(super) fn possible(image: &GuardImage, output: u8, code: u8) -> (u8, u16, u16) {
    let mut words = WordsImage {
        count: 7,
        words: [7; 16],
    };
    let number = pm_host_possible_words(image, output, code, &mut words);
    (number, words.count, words.words[0])
}

pub(super) fn format(image: &GuardImage, output: u8) -> (u8, u8, i8) {
    let mut format = FormatNumbers {
        kind: 7,
        exponent: 7,
        m: 7,
        b: 7,
    };
    let number = pm_host_format(image, output, &mut format);
    (number, format.kind, format.exponent)
}

// What memory keeps of the format of output 0 or 1.
pub(super) fn kept(image: &GuardImage, output: u8) -> (u8, [u8; 5]) {
    let [first, second, ..] = image.host.state.formats;
    let format = if output == 0 { first } else { second };
    let coefficients = format.coefficients;
    (format.mode, coefficients)
}

pub(super) fn restart_seen(image: &GuardImage) -> u8 {
    pm_host_restart_seen(image)
}

// Kind, length and bytes to be read of what is being sent, and whether its bytes begin so.
pub(super) fn shown(image: &GuardImage, bytes: &[u8]) -> (u8, u8, u8, bool) {
    let frame = sending(image);
    (
        frame.kind,
        frame.length,
        frame.answer,
        frame.bytes.starts_with(bytes),
    )
}

pub(super) fn read_write(address: u8, bytes: &[u8]) -> (u8, PacketImage) {
    let mut packet = PACKET;
    let number = pm_packet_read_write(address, bytes, &mut packet);
    (number, packet)
}

pub(super) fn read_request(address: u8, bytes: &[u8]) -> (u8, PacketImage) {
    let mut packet = PACKET;
    let number = pm_packet_read_request(address, bytes, &mut packet);
    (number, packet)
}

pub(super) fn written(address: u8, packet: &PacketImage, bytes: &[u8]) -> (u8, u8, bool) {
    let mut frame = NOTHING;
    let number = pm_packet_write(address, packet, &mut frame);
    (number, frame.length, frame.bytes.starts_with(bytes))
}

pub(super) fn microvolts(format: &FormatNumbers, word: u16) -> (u8, i64) {
    let mut microvolts = 7;
    let number = pm_microvolts(format, word, &mut microvolts);
    (number, microvolts)
}

pub(super) fn nearest(format: &FormatNumbers, microvolts: i64) -> (u8, u16) {
    let mut word = 7;
    let number = pm_nearest_word(format, microvolts, &mut word);
    (number, word)
}

pub(super) fn at_most(format: &FormatNumbers, microvolts: i64) -> (u8, u16) {
    let mut word = 7;
    let number = pm_at_most(format, microvolts, &mut word);
    (number, word)
}

pub(super) fn at_least(format: &FormatNumbers, microvolts: i64) -> (u8, u16) {
    let mut word = 7;
    let number = pm_at_least(format, microvolts, &mut word);
    (number, word)
}

pub(super) fn narrow(image: &mut GuardImage, output: u8, least: i64, most: i64) -> u8 {
    pm_host_set_limits(image, output, least, most)
}

pub(super) fn no_limits(image: &mut GuardImage, output: u8) -> u8 {
    pm_host_no_limits(image, output)
}

pub(super) fn limits(image: &GuardImage, output: u8) -> (u8, i64, i64) {
    let mut limits = LimitsImage { least: 7, most: 7 };
    let number = pm_host_limits(image, output, &mut limits);
    (number, limits.least, limits.most)
}

pub(super) fn within(image: &GuardImage, output: u8) -> u8 {
    pm_host_limits_state(image, output)
}

pub(super) fn band(image: &GuardImage, output: u8) -> (u8, i64, i64) {
    let mut band = BandImage {
        least: 7,
        greatest: 7,
    };
    let number = pm_host_band(image, output, &mut band);
    (number, band.least, band.greatest)
}

// Whether the number has a name that begins so.
pub(super) fn refusal_name(number: u8, text: &[u8]) -> bool {
    let mut name = NameImage { text: [7; 32] };
    pm_refusal_name(number, &mut name) == 0 && name.text.starts_with(text)
}

pub(super) fn end_name(kind: u16, text: &[u8]) -> bool {
    let mut name = NameImage { text: [7; 32] };
    pm_end_name(kind, &mut name) == 0 && name.text.starts_with(text)
}

// What came back for a request of this kind, page or side, and code.
pub(super) fn answer(address: u8, request: (u8, u8, u8), bytes: &[u8]) -> (u8, u8, u16, [u8; 5]) {
    let (kind, page, code) = request;
    let request = PacketImage {
        kind,
        page,
        code,
        count: 2,
        word: 0,
    };
    let mut payload = PayloadImage {
        length: 7,
        bytes: [7; 5],
        word: 7,
    };
    let number = pm_packet_read_answer(address, &request, bytes, &mut payload);
    (number, payload.length, payload.word, payload.bytes)
}

// What came back for a block read of a code, or for a read of so many bytes of it: the number, and the payload's length and
// first four bytes.
pub(super) fn other_read(
    address: u8,
    code: u8,
    size: Option<u8>,
    bytes: &[u8],
) -> (u8, u8, [u8; 4]) {
    let mut block = BlockImage {
        length: 7,
        bytes: [7; 32],
    };
    let number = match size {
        None => pm_read_block(address, code, bytes, &mut block),
        Some(size) => pm_read_plain(address, code, size, bytes, &mut block),
    };
    let [first, second, third, fourth, ..] = block.bytes;
    (number, block.length, [first, second, third, fourth])
}

pub(super) fn known(image: &GuardImage) -> (u8, KnownCells) {
    let mut known = KnownCells {
        count: 7,
        cells: [KnownCell {
            code: 7,
            output: 7,
            standing: StandingImage {
                is_confirmed: 7,
                word: 7,
            },
            words: WordsImage {
                count: 7,
                words: [7; 16],
            },
        }; Cell::PLACES],
    };
    let number = pm_host_known_cells(image, &mut known);
    (number, known)
}

pub(super) type Rail = (u8, u8, u8, u8, [u8; 4], i64, i64);

// The number, and what was said: 7 if nothing was.
pub(super) fn rail(image: &GuardImage, output: u8) -> (u8, Rail) {
    let mut rail = RailImage {
        power: 7,
        within: 7,
        band: 7,
        selected: 7,
        unused: [7; 4],
        ends: BandImage {
            least: 7,
            greatest: 7,
        },
    };
    let number = pm_host_rail(image, output, &mut rail);
    let ends = &rail.ends;
    let said = (
        rail.power,
        rail.within,
        rail.band,
        rail.selected,
        rail.unused,
        ends.least,
        ends.greatest,
    );
    (number, said)
}
