// The C functions to which a radio is lent: each is thin over a call by value.
#![tactic(auto)]

ghost use Rattle.radio.specs.Radio.{storing, noticing, replying};
ghost use Rattle.radio_c.specs.Leaves.{Leaves, LeavesBoth};

use radio::Doing;
use stores::Radio;

#[unsafe(no_mangle)]
pub extern "C" fn ffn_radio_store(radio: &mut Radio, number: u64) -> Doing
    ensures { Leaves radio.new result (storing radio.old number) }
{
    let next = radio::stored(*radio, number);
    *radio = next.radio;
    next.doing
}

#[unsafe(no_mangle)]
pub extern "C" fn ffn_radio_notice(radio: &mut Radio, string: &[u8], question: &mut [u8]) -> Doing
    ensures { LeavesBoth radio.new result question.new (noticing radio.old string.now question.old) }
{
    let next = radio::noticed(*radio, string, question);
    *radio = next.radio;
    next.doing
}

#[unsafe(no_mangle)]
pub extern "C" fn ffn_radio_reply(
    radio: &mut Radio,
    invoke: u8,
    string: &[u8],
    question: &mut [u8],
) -> Doing
    ensures { LeavesBoth radio.new result question.new (replying radio.old invoke string.now question.old) }
{
    let next = radio::replied(*radio, invoke, string, question);
    *radio = next.radio;
    next.doing
}
