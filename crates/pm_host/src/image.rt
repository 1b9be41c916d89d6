//! A host in memory that a caller keeps who isn't Rattle: plain numbers, and what they mean. The calls of a
//! state see typed stages only.

ghost use Rattle.std.specs.Prelude.{◌≡◌, true, Some, None, IfOk, OnOk, OnErr};
ghost use Rattle.std.specs.Result.{result_err, result_ok};
ghost use Rattle.pm_table.specs.Address.{IsAddress};
ghost use Rattle.pm_table.specs.Cell.{cell_at};
ghost use Rattle.pm_host.specs.Image.{at_command, stage_held, stage_in, held, host_of, is_current, is_sound, is_stage};
ghost use Rattle.pm_host.specs.Memory.{cell_stage, command_stage, output_stage, question_stage, stage_image, IsImage, IsState};
ghost use Rattle.pm_host.specs.Refusals.{setup_fault, IsSetup};
ghost use Rattle.pm_host.specs.Sound.{IsSound, IsStage};
ghost use Rattle.pm_host.specs.Summary.{start};
ghost use Rattle.pm_host.specs.Transcript.{Setup};
ghost use Rattle.pm_host.specs.declared.stage.Stage.TheVariants.{Asks, Sends};

use crate::command::Command;
use crate::fault::HostFault;
use crate::question::Question;
use crate::stage::Stage;
use crate::state::State;
use pm_table::{Cell, Code, address_ok, cell_of};

/// Memory that isn't the image of a host of this layout.
#[derive(Clone, Copy, Debug, PartialEq, Eq)]
pub struct NoHost;

/// A host in memory that a caller keeps who isn't Rattle: after the mark and the number of its layout, if
/// the open job stands, and the state. It has no padding, holds no address of memory, and may be copied.
#[repr(C)]
#[derive(Debug, Drop)]
pub struct HostImage {
    /// 504Dh, the bytes 'PM'.
    pub mark: u16,
    /// The number of this layout.
    pub version: u16,
    /// The stage of the open job, or that none is open.
    pub stage: StageImage,
    /// What the host holds beside.
    pub state: State,
}

impl HostImage {
    /// The mark of an image.
    pub const MARK: u16 = 0x504D;

    /// The number of the layout that this is a part of: `pm_host_c` keeps registers and limits after it.
    pub const VERSION: u16 = 6;

    /// Zeros, which are the image of no host.
    #[tactic(auto, unfolding(crate::specs::Image::host_of))]
    pub fn blank() -> HostImage
        ensures { host_of result ≡ None }
    {
        HostImage {
            mark: 0,
            version: 0,
            stage: StageImage::of(None),
            state: State::blank(),
        }
    }

    /// Makes it the image of a host as `Host::new` makes one, whatever it was.
    pub fn start(&mut self, addr: u8, outputs: u8, passes: u8) -> Result<(), HostFault>
        requires { IsAddress addr }
        ensures made { let setup : Setup = record { addr = addr; outputs = outputs; passes = passes } in
            OnOk result (host_of self.new ≡ Some (start setup)) }
        ensures err { OnErr result (self.new ≡ self.old) }
        ensures fault { result_err result ≡ setup_fault outputs passes }
        ensures written { OnOk result (IsImage self.new) }
    {
        self.state.start(addr, outputs, passes)?;
        self.mark = HostImage::MARK;
        self.version = HostImage::VERSION;
        self.write_stage(None);
        Ok(())
    }

    /// The stage of the open job of the host whose image it is, `None` if none is open: each call of its
    /// state asks for it. `NoHost` if it isn't the image of a host.
    #[inline(never)]
    #[tactic(auto, unfolding(crate::specs::Image::host_of))]
    pub fn read_stage(&self) -> Result<Option<Stage>, NoHost>
        ensures found { IfOk result (λ stage. host_of self.now ≡ Some (held stage self.now.state)) }
        ensures sound { IfOk result (λ stage. IsSound (held stage self.now.state)) }
        ensures current { OnOk result (is_current self.now ≡ true) }
        ensures other { OnErr result (host_of self.now ≡ None) }
    {
        if self.mark != HostImage::MARK || self.version != HostImage::VERSION {
            return Err(NoHost);
        }
        let stage = self.stage.stage()?;
        if !self.state.is_sound(stage) {
            return Err(NoHost);
        }
        Ok(stage)
    }

    /// Keeps if the open job stands after a call of the state.
    #[inline(always)]
    #[tactic(auto, unfolding(crate::specs::Image::host_of))]
    pub fn write_stage(&mut self, stage: Option<Stage>)
        requires current { is_current self.old ≡ true }
        requires sound { IsSound (held stage self.old.state) }
        ensures host { host_of self.new ≡ Some (held stage self.old.state) }
        ensures written { IsState self.old.state → IsImage self.new }
    {
        self.stage = StageImage::of(stage);
    }
}

impl State {
    // Whether a host holds it whose open job stands there.
    #[tactic(auto, unfolding(crate::specs::Image::is_sound, crate::specs::Image::formats_held))]
    fn is_sound(&self, stage: Option<Stage>) -> bool
        ensures sound { result ≡ is_sound (held stage self.now) }
        ensures fact { result ≡ true → IsSound (held stage self.now) }
    {
        address_ok(self.address)
            && (1..=8).contains(&self.outputs)
            && (1..=15).contains(&self.passes)
            && match stage {
                Some(stage) => self.is_stage(stage),
                None => true,
            }
    }

    // Whether an open job may stand at this stage.
    fn is_stage(&self, stage: Stage) -> bool
        requires { IsSetup (held None self.now).setup }
        ensures test { result ≡ is_stage (held (Some stage) self.now) (Some stage) }
        ensures fact { result ≡ true → IsStage (held (Some stage) self.now) (Some stage) }
    {
        let passes = self.passes;
        match stage {
            Stage::Writes { cell, word, pass } | Stage::Reads { cell, word, pass } => {
                cell.is_there(self.outputs)
                    && cell.accepts(word)
                    && self.known.is_open(cell, word)
                    && pass < passes
            }
            Stage::Asks { question, tries } => question.is_there(self.outputs) && tries < passes,
            Stage::Sends { command, tries } => command.is_there(self.outputs) && tries < passes,
        }
    }
}

/// The stage of an open job, or that none is open, as plain numbers.
#[repr(C)]
#[derive(Clone, Copy, Debug, PartialEq, Eq)]
pub struct StageImage {
    /// 0 if no job is open; 1 and 2 for an order that writes or reads; 3, 4 and 5 for a question, of a
    /// cell's word, of VOUT_MODE or of COEFFICIENTS; 6 for a command that is sent to an output, 7 for one
    /// that is sent to the device. No host has another number.
    pub kind: u8,
    /// The command code: of the cell for 1 to 3, of the command for 6 and 7; otherwise 0.
    pub code: u8,
    /// The output, by its page; 0 for WRITE_PROTECT, and for 7.
    pub output: u8,
    /// How many passes or tries came before.
    pub count: u8,
    /// The word of an order.
    pub word: u16,
}

impl StageImage {
    /// The numbers of this stage; `None` is no open job.
    #[tactic(auto, unfolding(crate::specs::Image::stage_held))]
    fn of(stage: Option<Stage>) -> StageImage
        ensures held { stage_held result ≡ Some stage }
        ensures written { result ≡ stage_image stage }
    {
        match stage {
            None => StageImage::at_output(0, 0, 0),
            Some(Stage::Writes { cell, word, pass }) => StageImage::at_cell(1, cell, word, pass),
            Some(Stage::Reads { cell, word, pass }) => StageImage::at_cell(2, cell, word, pass),
            Some(Stage::Asks { question, tries }) => StageImage::at_question(question, tries),
            Some(Stage::Sends { command, tries }) => StageImage::at_command(command, tries),
        }
    }

    // A stage of a cell.
    fn at_cell(kind: u8, cell: Cell, word: u16, count: u8) -> StageImage
        ensures cell { cell_at result.code result.output ≡ Some cell }
        ensures written { result ≡ cell_stage kind cell word count }
    {
        StageImage {
            kind,
            code: cell.code().0,
            output: match cell {
                Cell::Out(output, _) => output,
                Cell::Protect => 0,
            },
            count,
            word,
        }
    }

    // A stage of a question.
    #[tactic(auto, unfolding(crate::specs::Image::stage_held))]
    fn at_question(question: Question, count: u8) -> StageImage
        ensures held { stage_held result ≡ Some (Some (Asks question count)) }
        ensures written { result ≡ question_stage question count }
    {
        match question {
            Question::Word(cell) => StageImage::at_cell(3, cell, 0, count),
            Question::Mode(output) => StageImage::at_output(4, output, count),
            Question::Coefficients(output) => StageImage::at_output(5, output, count),
        }
    }

    // A stage of a command.
    #[tactic(auto, unfolding(crate::specs::Image::stage_held))]
    fn at_command(command: Command, count: u8) -> StageImage
        ensures held { stage_held result ≡ Some (Some (Sends command count)) }
        ensures written { result ≡ command_stage command count }
    {
        let (kind, output) = match command.output() {
            Some(output) => (6, output),
            None => (7, 0),
        };
        StageImage {
            kind,
            code: command.code().0,
            output,
            count,
            word: 0,
        }
    }

    // A stage of an output.
    fn at_output(kind: u8, output: u8, count: u8) -> StageImage
        ensures { result ≡ output_stage kind output count }
    {
        StageImage {
            kind,
            code: 0,
            output,
            count,
            word: 0,
        }
    }

    /// What the numbers mean: if the open job stands, or `None` for no open job. `NoHost` for a kind or a
    /// command code that means nothing.
    #[tactic(auto, unfolding(crate::specs::Image::stage_held))]
    fn stage(&self) -> Result<Option<Stage>, NoHost>
        ensures { result_ok result ≡ stage_held self.now }
    {
        let (word, pass) = (self.word, self.count);
        let stage = match self.kind {
            0 => return Ok(None),
            1 => Stage::Writes {
                cell: self.cell()?,
                word,
                pass,
            },
            2 => Stage::Reads {
                cell: self.cell()?,
                word,
                pass,
            },
            3 => self.asks(Question::Word(self.cell()?)),
            4 => self.asks(Question::Mode(self.output)),
            5 => self.asks(Question::Coefficients(self.output)),
            6 => self.sends(Some(self.output))?,
            7 => self.sends(None)?,
            _ => return Err(NoHost),
        };
        Ok(Some(stage))
    }

    // The cell of the code and the output.
    fn cell(&self) -> Result<Cell, NoHost>
        ensures { result_ok result ≡ cell_at self.now.code self.now.output }
    {
        cell_of(Code(self.code), self.output).ok_or(NoHost)
    }

    // The stage that asks this.
    fn asks(&self, question: Question) -> Stage
        ensures { result ≡ Asks question self.now.count }
    {
        Stage::Asks {
            question,
            tries: self.count,
        }
    }

    // The stage that sends the command of its code, at this output or at the device.
    fn sends(&self, output: Option<u8>) -> Result<Stage, NoHost>
        ensures { result_ok result ≡ at_command self.now output }
    {
        match Command::of(Code(self.code), output) {
            Some(command) => Ok(Stage::Sends {
                command,
                tries: self.count,
            }),
            None => Err(NoHost),
        }
    }
}
