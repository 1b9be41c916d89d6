//! What a look at an output of a part is worth, while anything happens beside it.

ghost use Rattle.std.specs.Prelude.{◌≡◌, ◌<◌, ◌∷◌, [], true, false};
ghost use Rattle.pm_frame.specs.PagedRead.{paged_request};
ghost use Rattle.pm_table.specs.Address.{IsAddress};
ghost use Rattle.pm_device.specs.declared.converter.Ending.TheVariants.{Restart};
ghost use Rattle.pm_delivery.specs.Questions.{question_code};
ghost use Rattle.pm_sequence_laws.specs.Delivers.{WasOn};
ghost use Rattle.pm_part_laws.specs.Happenings.{Happening, Hears};
ghost use Rattle.pm_law_tests.specs.Beside.{PartLife, both_in};
ghost use Rattle.pm_law_tests.specs.Deliveries.{LookLife, LooksAt};

use pm_delivery::{Delivery, Question, Reading, Verdict, answer_of, request};
use pm_device::{Converter, Ending};
use pm_rail::Power;
use pm_sequence_laws::delivers_beside;
use pm_world::answer_in;

/// A look begins beside a part, after whatever happened there.
pub fn a_look_that_begins(delivery: &mut Delivery, device: &Converter, is_off: bool, lowers: bool)
    ghost life: { PartLife }
    requires here { delivery.old.output < life.held.config.count }
    requires part { device.now ≡ (both_in life).device }
    ensures { LooksAt (record { held = life.held; passes = life.passes; later = []; before = life.happened }) delivery.new device.now }
{
    delivery.look_after(is_off, lowers);
}

/// A look that asks the part hears what a look may hear.
pub fn a_look_that_asks(
    delivery: &mut Delivery,
    device: &mut Converter,
    address: u8,
    question: Question,
)
    ghost life: { LookLife }
    requires looks { LooksAt life delivery.old device.old }
    requires own { address ≡ life.held.config.addr }
    requires address { IsAddress address }
    ensures { LooksAt (record life { later = Hears (paged_request address delivery.old.output (question_code question)) Restart ∷ life.later })
        delivery.new device.new }
{
    let sent = request(address, delivery.output, question);
    let reply = device.hear(&sent, Ending::Restart);
    let answer = answer_of(address, delivery.output, question, answer_in(&reply));
    delivery.hear(question, answer);
}

/// A rail that is said to deliver had OFF of its own STATUS_WORD 0 at a moment since the look began, and one that is said to have gone off
/// had it 1.
pub fn a_rail_that_delivers(
    delivery: &Delivery,
    device: &Converter,
    passes: u8,
    power: Power,
    reading: Reading,
) -> Verdict
    ghost life: { LookLife }
    requires { LooksAt life delivery.now device.now }
    ensures on { result ≡ Verdict.Delivers → WasOn life.held life.passes delivery.now.output true life.later life.before }
    ensures off { result ≡ Verdict.WentOff → WasOn life.held life.passes delivery.now.output false life.later life.before }
{
    delivers_beside();
    delivery.verdict(passes, power, reading)
}
