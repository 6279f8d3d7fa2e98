// The library for programs in C and Rust (include/retimer.h). specs/Calls has what each call promises, specs/Code what its number says.
//
// A record is lent as a struct by reference, so its field types are its ranges. Each call that takes one copies it, and puts back what comes of it:
// it decides nothing itself.
#![tactic(auto)]

ghost use Rattle.std.specs.Prelude.{◌≡◌};
ghost use Rattle.retimer.specs.Calls.{figures_of, ReadCall, CheckCall, WriteCall, StepCall, RunCall, RetimeCall, RereadCall, QuoteCall, RailsCall};

mod coded;

use coded::{answer_code, refusal_code};
use netlist::Netlist;
use quote::Quoted;
use simulate::Machine;

// A quote's figures: the register total, the largest count on an edge, the number of values to choose.
// Kept: the C interface lends this record.
#[repr(C)]
#[derive(Clone, Copy)]
pub struct Figures {
    pub registers: u32,
    pub largest: u32,
    pub number: u32,
}

impl From<Quoted> for Figures {
    ghost from_gives = { λ quote figures. figures ≡ figures_of quote };

    fn from(quote: Quoted) -> Figures {
        Figures {
            registers: quote.registers,
            largest: quote.largest,
            number: quote.number,
        }
    }
}

// A text read into the record; a refusal leaves the record as it was.
#[unsafe(no_mangle)]
pub extern "C" fn retimer_read(text: &[u8], net: &mut Netlist) -> u64
    ensures { ReadCall text.now net.old result net.new }
{
    match netlist::read(text) {
        Ok(read) => {
            *net = read;
            0
        }
        Err(reason) => refusal_code(reason),
    }
}

// A record checked as if its lines were read.
#[unsafe(no_mangle)]
pub extern "C" fn retimer_check(net: &Netlist) -> u64
    ensures { CheckCall net.now result }
{
    match netlist::check(*net) {
        Ok(_) => 0,
        Err(reason) => refusal_code(reason),
    }
}

// A record written.
#[unsafe(no_mangle)]
pub extern "C" fn retimer_write(net: &Netlist, out: &mut [u8]) -> u64
    ensures { WriteCall net.now out.old result out.new }
{
    answer_code(netlist::write(*net, out))
}

// One clock of a record on the machine.
#[unsafe(no_mangle)]
pub extern "C" fn retimer_step(
    net: &Netlist,
    machine: &mut Machine,
    vector: &[u8],
    out: &mut [u8],
) -> u64
    ensures { StepCall net.now machine.old vector.now out.old result machine.new out.new }
{
    answer_code(simulate::step_in_place(*net, machine, vector, out))
}

// A text run on these vectors.
#[unsafe(no_mangle)]
pub extern "C" fn retimer_run(text: &[u8], vectors: &[u8], out: &mut [u8]) -> u64
    ensures { RunCall text.now vectors.now out.old result out.new }
{
    answer_code(simulate::run(text, vectors, out))
}

// A text retimed.
#[unsafe(no_mangle)]
pub extern "C" fn retimer_retime(text: &[u8], out: &mut [u8], lags: &mut [i32]) -> u64
    ensures { RetimeCall text.now out.old lags.old result out.new lags.new }
{
    answer_code(retime::retime(text, out, lags))
}

// A text read and written again.
#[unsafe(no_mangle)]
pub extern "C" fn retimer_reread(text: &[u8], out: &mut [u8]) -> u64
    ensures { RereadCall text.now out.old result out.new }
{
    answer_code(netlist::rewrite(text, out))
}

// A text quoted: the number is the period, the figures are written; a refusal leaves them as they were.
#[unsafe(no_mangle)]
pub extern "C" fn retimer_quote(text: &[u8], figures: &mut Figures) -> u64
    ensures { QuoteCall text.now figures.old result figures.new }
{
    match quote::quote(text) {
        Ok(quote) => {
            *figures = Figures::from(quote);
            u64::from(quote.period)
        }
        Err(reason) => refusal_code(reason),
    }
}

// A text's rails: each node's into the table, the number is their total; a refusal leaves the table as it was.
#[unsafe(no_mangle)]
pub extern "C" fn retimer_rails(text: &[u8], table: &mut [u32]) -> u64
    ensures { RailsCall text.now table.old result table.new }
{
    answer_code(rails::rails(text, table))
}
