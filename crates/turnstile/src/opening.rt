//! How a turnstile is made: the history's table with a seat for each pass, then the turns' table
//! round the value, then the passes.
ghost use Rattle.std.specs.Prelude.{◌≡◌, ℕ, ◌+◌, ◌<◌, ◌≤◌, ◌^◌, ◌∷◌, [], length, vec_len};
ghost use Rattle.std.specs.Prelude.{vec_capacity, Some, IfSome, IfOk, IfErr};
ghost use Rattle.turnstile.specs.History.{past};
ghost use Rattle.turnstile.specs.Names.{history_of};
ghost use Rattle.turnstile.specs.Turns.{turn};
ghost use Rattle.turnstile.specs.Opening.{AreNewSeats, AreDealt};

use crate::history::{Founds, HistoryRule, Past};
use crate::pass::Pass;
use crate::told::Told;
use crate::turns::{Cuts, Deposit, Key, Of, Turn, TurnRule};
use atomic_table::{Refused, Seat, Table};
use std::alloc::Global;

/// There was no memory. The value comes back as it was.
#[derive(Drop)]
pub struct NotMade<S> {
    pub state: S,
}

// The history's table, the home seat, and a seat for each pass, numbered from 1.
pub(crate) fn found<S: Told>(
    alloc: Global,
    passes: u32,
) -> Option<
    (
        Table<(), Past<S::Item>, (), HistoryRule<S>, Global>,
        Seat<(), Past<S::Item>>,
        Vec<Seat<(), Past<S::Item>>>,
    ),
>
    ensures table { IfSome result (λ r. r.0.shared.table_id.words ≡ 1) }
    ensures home { IfSome result (λ r. (r.1.table_id ≡ r.0.shared.table_id)
        × (r.1.me ≡ (past 0 1 passes [] [] [] [], []))) }
    ensures pasts { IfSome result (λ r. (vec_len r.2 ≡ passes)
        × AreNewSeats r.0.shared.table_id r.2.items) }
{
    let Ok((history, mut home)) = Table::of_words(alloc, &[0], &()) else {
        return None;
    };
    let Ok(mut pasts) = Vec::with_capacity(alloc, passes as usize) else {
        return None;
    };
    for _made in 0..passes {
        let past = history.shared.split_seat::<Founds>(&mut home);
        pasts.push_reserved(past);
    }
    Some((history, home, pasts))
}

// The turns' table with the value in its slot, and the seat that stands for all passes.
pub(crate) fn enclose<S: Told>(
    alloc: Global,
    key: &Key<S>,
    state: S,
    home: Seat<(), Past<S::Item>>,
) -> Result<
    (
        Table<Option<Deposit<S>>, Turn<S::Fixed>, Key<S>, TurnRule<S>, Global>,
        Seat<Option<Deposit<S>>, Turn<S::Fixed>>,
    ),
    NotMade<S>,
>
    requires small { key.now.passes < 2 ^ 32 }
    requires key { (key.now.state.value ≡ state) × (key.now.home.value.table_id ≡ home.table_id) }
    requires home { (S.items state ≡ []) × (home.me ≡ (past 0 1 key.now.passes [] [] [] [], [])) }
    ensures ok { IfOk result (λ r. (r.0.shared.table_id.words ≡ 2)
        × (r.0.shared.table_id.slots ≡ 1) × (r.0.shared.key ≡ key.now)) }
    ensures seat { IfOk result (λ r. (r.1.table_id ≡ r.0.shared.table_id)
        × (r.1.me ≡ (
          turn key.now.passes [] 0
              (Some (S.fixed state)) (history_of key.now.passes home.table_id),
          [],
        ))) }
    ensures err { IfErr result (λ e. e.state ≡ state) }
{
    let Ok(mut slots) = Vec::with_capacity(alloc, 1) else {
        return Err(NotMade { state });
    };
    slots.push_reserved(Some(Deposit {
        of: Of::new(),
        state,
        home,
    }));
    match Table::new(alloc, &[0, 0], slots, key) {
        Ok(made) => Ok(made),
        Err(refused) => {
            let Refused { mut slots } = refused;
            let last = slots.pop();
            slots.destroy_empty();
            let Some(slot) = last else { unreachable!() };
            let Some(deposit) = slot else { unreachable!() };
            let Deposit {
                of: _,
                state,
                home: _,
            } = deposit;
            Err(NotMade { state })
        }
    }
}

// A pass for each of the history's seats, in their order. Each has a seat of the turns that stands
// for one pass.
pub(crate) fn deal<S: Told>(
    turns: &Table<Option<Deposit<S>>, Turn<S::Fixed>, Key<S>, TurnRule<S>, Global>,
    mut seat: Seat<Option<Deposit<S>>, Turn<S::Fixed>>,
    pasts: Vec<Seat<(), Past<S::Item>>>,
    mut passes: Vec<Pass<S>>,
) -> Vec<Pass<S>>
    requires table { (seat.table_id ≡ turns.now.shared.table_id)
        × (turns.now.shared.table_id.words ≡ 2) }
    requires seat { seat.me
        ≡ (
          turn (vec_len pasts) [] 0 (Some (S.fixed turns.now.shared.key.state.value))
              (history_of turns.now.shared.key.passes turns.now.shared.key.home.value.table_id),
          [],
        ) }
    requires room { (vec_len passes ≡ 0) × (vec_len pasts ≤ vec_capacity passes) }
    requires pasts { AreNewSeats turns.now.shared.key.home.value.table_id pasts.items }
    ensures len { vec_len result ≡ vec_len pasts }
    ensures each { AreDealt turns.now.shared.key.home.value.table_id turns.now.shared.table_id
        (Some (S.fixed turns.now.shared.key.state.value)) result.items }
{
    for past in pasts {
        let turn = turns.shared.split_seat::<Cuts>(&mut seat);
        passes.push_reserved(Pass { past, turn });
    }
    passes
}
