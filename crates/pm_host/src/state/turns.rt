//! What becomes of an open job once its frame was sent.

ghost use Rattle.std.specs.Prelude.{◌≡◌, ◌+◌, ◌-◌, ◌*◌, ◌<◌, ◌≤◌, true, length, slice_set, is_some, Some, None, IfSome, MatchOption};
ghost use Rattle.pm_table.specs.Cell.{cell_accepts, IsCell};
ghost use Rattle.pm_table.specs.VoutMode.{mode_of};
ghost use Rattle.pm_frame.specs.Layout.{answer_length};
ghost use Rattle.pm_host.specs.Frames.{frames_from, frames_left};
ghost use Rattle.pm_host.specs.Image.{held, format_held, formats_held};
ghost use Rattle.pm_host.specs.Marks.{Good};
ghost use Rattle.pm_host.specs.Memory.{format_image, AreFormatImages, IsFormatImage, IsState};
ghost use Rattle.pm_host.specs.Possible.{has_room, only};
ghost use Rattle.pm_host.specs.Progress.{change_to, stage_of_progress};
ghost use Rattle.pm_host.specs.Question.{question_message, frames_after, IsQuestion};
ghost use Rattle.pm_host.specs.Sound.{IsOrdering, IsAsking, IsSending, IsSound};
ghost use Rattle.pm_host.specs.Summary.{possible_at, another as spec_another, marked, writes, sends, read_back as spec_read_back, request_answered as spec_answered, answer_taken, learned as spec_learned, mode_taken, finished};

use crate::answers::{byte_in, good_answer, word_in};
use crate::command::Command;
use crate::format_image::FormatImage;
use crate::job::JobEnd;
use crate::progress::Progress;
use crate::question::Question;
use crate::stage::Stage;
use crate::state::{OUTPUTS, State};
use pm_table::{Cell, VoutMode};

impl State {
    /// The write of an order begins to be sent; `None` if its word has no room among those that the cell
    /// may hold.
    pub(super) fn begin_write(&mut self, cell: Cell, word: u16, pass: u8) -> Option<Stage>
        requires sound { IsSound (held None self.old) }
        requires there { IsCell self.old.outputs cell }
        requires accepted { cell_accepts cell word ≡ true }
        requires left { pass < self.old.passes }
        ensures room { is_some result ≡ has_room word (possible_at (held None self.old) cell) }
        ensures sound { IsSound (held result self.new) }
        ensures stage { IfSome result (λ stage. stage ≡ Stage.Writes cell word pass) }
        ensures after { IfSome result
            (λ stage. held (Some stage) self.new ≡ (writes (held None self.old) cell word pass).after) }
        ensures full { MatchOption result (self.new ≡ self.old) (λ stage. Unit {0}) }
        ensures written { IsState self.old → IsState self.new }
    {
        if self.known.put(cell, word) {
            Some(Stage::Writes { cell, word, pass })
        } else {
            None
        }
    }

    /// A command begins to be sent, after these tries.
    pub(super) fn begin_send(&mut self, command: Command, tries: u8) -> Stage
        requires sound { IsSound (held None self.old) }
        requires sending { IsSending (held None self.old) command tries }
        ensures sound { IsSound (held (Some result) self.new) }
        ensures stage { result ≡ Stage.Sends command tries }
        ensures after { held (Some result) self.new ≡ (sends (held None self.old) command tries).after }
        ensures written { IsState self.old → IsState self.new }
    {
        if let Command::RestoreUserAll = command {
            self.known.restored();
        }
        Stage::Sends { command, tries }
    }

    /// A good answer for a cell.
    fn note(&mut self, cell: Cell, word: u16)
        requires sound { IsSound (held None self.old) }
        requires there { IsCell self.old.outputs cell }
        ensures sound { IsSound (held None self.new) }
        ensures after { held None self.new ≡ marked (held None self.old) (Good cell word) }
        ensures alone { possible_at (held None self.new) cell ≡ only word }
        ensures written { IsState self.old → IsState self.new }
    {
        self.known.good(cell, word);
    }

    /// An order read its cell back.
    pub(super) fn read_back(
        &mut self,
        cell: Cell,
        word: u16,
        pass: u8,
        read: Option<u16>,
    ) -> Progress
        requires sound { IsSound (held None self.old) }
        requires ordering { IsOrdering (held None self.old) cell word pass }
        ensures sound { IsSound (held (stage_of_progress result) self.new) }
        ensures changed { change_to result self.new ≡ spec_read_back (held None self.old) cell word pass read }
        ensures left { frames_left (held (stage_of_progress result) self.new) ≤ 2 * (self.old.passes - (pass + 1)) }
        ensures written { IsState self.old → IsState self.new }
    {
        if let Some(read) = read {
            self.note(cell, read);
            if read == word {
                return Progress::Over(JobEnd::Done);
            }
        }
        if pass + 1 == self.passes {
            return Progress::Over(match read {
                Some(read) => JobEnd::Differs(read),
                None => JobEnd::Unknown,
            });
        }
        // The word is listed, or was just read.
        Progress::At(self.begin_write(cell, word, pass + 1).unwrap())
    }

    /// A request came back: a good answer, or another try.
    #[tactic(auto, unfolding(crate::specs::Answers::good_payload))]
    pub(super) fn answered(&mut self, question: Question, tries: u8, bytes: &[u8]) -> Progress
        requires sound { IsSound (held None self.old) }
        requires asking { IsAsking (held None self.old) question tries }
        ensures sound { IsSound (held (stage_of_progress result) self.new) }
        ensures changed { change_to result self.new
            ≡ spec_answered (held None self.old) (Some (Stage.Asks question tries)) bytes.now }
        ensures kept { (held None self.new).setup ≡ (held None self.old).setup }
        ensures left { frames_left (held (stage_of_progress result) self.new)
            < frames_from self.old.passes (Stage.Asks question tries) }
        ensures written { IsState self.old → IsState self.new }
    {
        match good_answer(self.address, &question.message(), bytes) {
            Some(payload) => self.take_answer(question, payload),
            None => self.another(question, tries),
        }
    }

    // The question is asked again after these tries if one is left.
    fn another(&self, question: Question, tries: u8) -> Progress
        requires sound { IsSound (held None self.now) }
        requires asking { IsAsking (held None self.now) question tries }
        ensures sound { IsSound (held (stage_of_progress result) self.now) }
        ensures changed { change_to result self.now ≡ spec_another (held None self.now) question tries }
        ensures left { frames_left (held (stage_of_progress result) self.now)
            < frames_from self.now.passes (Stage.Asks question tries) }
    {
        let tries = tries + 1;
        if tries == self.passes {
            return Progress::Over(JobEnd::Unknown);
        }
        Progress::At(Stage::Asks { question, tries })
    }

    // What a good answer to a question says.
    #[tactic(auto, unfolding(pm_table::specs::Commands::line_of))]
    fn take_answer(&mut self, question: Question, payload: &[u8]) -> Progress
        requires sound { IsSound (held None self.old) }
        requires there { IsQuestion self.old.outputs question }
        requires whole { length payload.now ≡ answer_length (question_message question) }
        ensures sound { IsSound (held (stage_of_progress result) self.new) }
        ensures changed { change_to result self.new ≡ answer_taken (held None self.old) question payload.now }
        ensures kept { (held None self.new).setup ≡ (held None self.old).setup }
        ensures left { frames_left (held (stage_of_progress result) self.new) ≤ frames_after self.old.passes question }
        ensures written { IsState self.old → IsState self.new }
    {
        match question {
            Question::Word(cell) => {
                self.note(cell, word_in(payload));
                Progress::Over(JobEnd::Done)
            }
            Question::Mode(output) => self.mode_known(output, byte_in(payload)),
            Question::Coefficients(output) => { self.learned(output, FormatImage::direct(payload)) }
        }
    }

    /// A learn knows what VOUT_MODE says.
    fn mode_known(&mut self, output: u8, mode: u8) -> Progress
        requires sound { IsSound (held None self.old) }
        requires there { output < self.old.outputs }
        ensures sound { IsSound (held (stage_of_progress result) self.new) }
        ensures changed { change_to result self.new ≡ mode_taken (held None self.old) output (mode_of mode) }
        ensures left { frames_left (held (stage_of_progress result) self.new) ≤ self.old.passes }
        ensures written { IsState self.old → IsState self.new }
    {
        match VoutMode::read(mode) {
            Ok(VoutMode::Direct) => Progress::At(Stage::Asks {
                question: Question::Coefficients(output),
                tries: 0,
            }),
            Ok(VoutMode::Linear(_)) => self.learned(output, FormatImage::linear(mode)),
            Err(_) => Progress::Over(JobEnd::Unknown),
        }
    }

    /// A learn ends, with a format or with none.
    fn learned(&mut self, output: u8, format: FormatImage) -> Progress
        requires sound { IsSound (held None self.old) }
        requires there { output < self.old.outputs }
        ensures sound { IsSound (held None self.new) }
        ensures over { stage_of_progress result ≡ None }
        ensures changed { change_to result self.new
            ≡ spec_learned (held None self.old) output (format_held format) }
        ensures written { IsFormatImage format → IsState self.old → IsState self.new }
    {
        if format.format().is_none() {
            return Progress::Over(JobEnd::Unknown);
        }
        put_format(&mut self.formats, output, format);
        Progress::Over(JobEnd::Learned)
    }

    /// A command was sent.
    pub(super) fn sent(&mut self, command: Command, tries: u8, acked: bool) -> Progress
        requires sound { IsSound (held None self.old) }
        requires sending { IsSending (held None self.old) command tries }
        ensures sound { IsSound (held (stage_of_progress result) self.new) }
        ensures changed { change_to result self.new
            ≡ finished (held None self.old) (Some (Stage.Sends command tries)) acked }
        ensures left { frames_left (held (stage_of_progress result) self.new) ≤ self.old.passes - (tries + 1) }
        ensures written { IsState self.old → IsState self.new }
    {
        if acked {
            Progress::Over(JobEnd::Done)
        } else if tries + 1 == self.passes {
            Progress::Over(JobEnd::Unknown)
        } else {
            Progress::At(self.begin_send(command, tries + 1))
        }
    }
}

// The format of an output's voltages was learned.
#[tactic(auto, unfolding(crate::specs::Image::formats_held))]
fn put_format(formats: &mut [FormatImage; OUTPUTS], output: u8, format: FormatImage)
    requires { output < 8 }
    ensures held { formats_held formats.new ≡ slice_set (formats_held formats.old) output (format_held format) }
    ensures written { format ≡ format_image (format_held format) → AreFormatImages formats.old → AreFormatImages formats.new }
{
    formats[usize::from(output)] = format;
}
