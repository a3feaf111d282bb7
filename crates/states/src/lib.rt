// The lent table and the lent figures together: whether both are right, and a row's next record stored, with the figures that follow from it.
#![tactic(auto)]

ghost use Rattle.std.specs.Prelude.{◌≡◌, true, ◌<◌, length};
ghost use Rattle.rows.specs.Rows.{record_sound};
ghost use Rattle.tables.specs.Tables.{rows_in};
ghost use Rattle.tables.specs.Figures.{figure_count, figure_words};
ghost use Rattle.states.specs.Lent.{state_in, SameLoans};
ghost use Rattle.states.specs.States.{beside, same_words, state_sound, said_check, refusal_of, row_for, record_in, counts_of, more, less, Among, Room, stored_in};

use answers::Refusal;
use numbers::FunctionalNumber;
use records::{Notice, Record};
use tables::Figures;

// "numbers held, notices waiting and notices in flight", in that order.
const HELD: usize = 0;

const WAITING: usize = 1;

const FLYING: usize = 2;

pub const FIGURES: usize = 3;

// Whether the lent words are these figures.
fn same_figures(figures: &[u64], counted: Figures) -> bool
    ensures { result ≡ same_words figures.now (figure_words counted) }
{
    figures == <[u64; 3]>::from(counted).as_slice()
}

// Whether table and figures are right; the table is passed over once.
pub fn check(table: &[u64], figures: &[u64]) -> Result<(), Refusal>
    ensures { said_check result ≡ refusal_of (beside table.now figures.now) }
{
    let counted = tables::recount(table)?;
    if !same_figures(figures, counted) {
        return Err(Refusal::WrongFigures);
    }
    Ok(())
}

// What one record counts.
fn counts_of(it: Record) -> Figures
    ensures { figure_words result ≡ counts_of it }
{
    let held = u64::from(it.holder.0 != 0);
    match it.notice {
        Notice::Absent => Figures {
            held,
            waiting: 0,
            flying: 0,
        },
        Notice::Waiting(_, _) => Figures {
            held,
            waiting: 1,
            flying: 0,
        },
        Notice::InFlight(_) => Figures {
            held,
            waiting: 0,
            flying: 1,
        },
    }
}

// Changes the figures by what a record lost and the next one gained.
fn change(figures: &mut [u64], lost: Figures, gained: Figures)
    requires figures_len { length figures.old ≡ figure_count }
    requires among { Among (figure_words lost) figures.old × Room figures.old (figure_words gained) }
    ensures { figures.new ≡ more (less figures.old (figure_words lost)) (figure_words gained) }
{
    figures[HELD] = figures[HELD] - lost.held + gained.held;
    figures[WAITING] = figures[WAITING] - lost.waiting + gained.waiting;
    figures[FLYING] = figures[FLYING] - lost.flying + gained.flying;
}

// Table and figures as a call is lent them.
// Kept: that both are right stands in the contracts: a ghost field beside a `&mut` gets no proof, and with an `impl Model` it is lost what the caller's words hold in the end.
#[derive(Drop)]
pub struct Lent<'a> {
    pub table: &'a mut [u64],
    pub figures: &'a mut [u64],
}

impl Lent<'_> {
    // Where a number stands.
    pub fn row_of(&self, number: FunctionalNumber) -> Option<usize>
        requires { state_sound (state_in self.now) ≡ true }
        ensures { result ≡ row_for (state_in self.now) number.0 }
    {
        tables::row_of(self.table, number)
    }

    // The record of a row.
    pub fn load(&self, row: usize) -> Record
        requires { (state_sound (state_in self.now) ≡ true) × (row < rows_in self.now.table.now) }
        ensures record { result ≡ record_in (state_in self.now) row }
        ensures sound { record_sound result ≡ true }
    {
        rows::load(self.table, row)
    }

    // Stores the next record of a row, and changes the figures by what the row lost and gained.
    pub fn store(&mut self, row: usize, next: Record)
        requires { (state_sound (state_in self.old) ≡ true) × (row < rows_in self.old.table.now) }
        ensures stored { state_in self.new ≡ stored_in (state_in self.old) row next }
        ensures loans { SameLoans self.old self.new }
    {
        let table = &mut *self.table;
        let figures = &mut *self.figures;
        let lost = counts_of(rows::load(table, row));
        change(figures, lost, counts_of(next));
        rows::store(table, row, next);
    }
}
