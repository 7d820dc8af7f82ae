//! The turnstile: `enter` waits for a turn and takes the value out, `leave` puts it back and ends
//! the turn, `close` gives it up. A turn is one ticket. The value is put back before the next
//! ticket is served, so no two turns have it at once. A ticket is drawn only where no other is out,
//! so it is served at once. Who finds another one out sleeps until a turn ends.
ghost use Rattle.std.specs.Prelude.{◌≡◌, ℕ, ◌+◌, ◌%◌, ◌<◌, ◌++◌, ◌∷◌, [], All, length, Some, None};
ghost use Rattle.std.specs.Prelude.{vec_len, IfOk, IfErr};
ghost use mathlib.Core.List.{IsPrefix};
ghost use Rattle.turnstile.specs.Totals.{Each};
ghost use Rattle.turnstile.specs.Passes.{IsIn, IsMade, added};
ghost use Rattle.turnstile.specs.Names.{id_of};
ghost use Rattle.turnstile.specs.Turns.{resting, waiting};

use crate::history::{HistoryRule, HomeIn, HomeOut, Joins, Looks, News, Past, Publishes};
use crate::opening::{NotMade, deal, enclose, found};
use crate::pass::{Inside, Pass};
use crate::passes::Passes;
use crate::told::Told;
use crate::turns::{Advances, Deposit, DrawsAt, Key, Of, Takes, Together, Turn, TurnRule};
use atomic_table::{Seat, Table};
use std::alloc::Global;
use std::marker::{Brand, Model};
use std::snapshot::Snapshot;
use std::sync::Wait;
use std::sync::atomic::AtomicU64;
use std::sync::atomic::Ordering::SeqCst;

/// A value that one thread at a time may have, in turns. Threads share it by reference.
pub struct Turnstile<S: Told> {
    history: Table<(), Past<S::Item>, (), HistoryRule<S>, Global>,
    turns: Table<Option<Deposit<S>>, Turn<S::Fixed>, Key<S>, TurnRule<S>, Global>,
    // Not 0 where a thread may sleep until a turn ends. No contract rests on it.
    sleepers: AtomicU64,
}

impl<S: Told> Model for Turnstile<S> {
    ghost use Rattle.std.specs.Prelude.{◌≡◌, ◌<◌};
    ghost use Rattle.turnstile.specs.Passes.{TurnstileView};

    ghost Value = { TurnstileView S.Fixed };

    ghost view = { λ t. record {
      passes = t.turns.shared.key.passes;
      fixed = S.fixed t.turns.shared.key.state.value;
      history = t.history.shared.table_id;
      turns = t.turns.shared.table_id;
    } };

    ghost invariant = { λ t. (t.history.shared.table_id.words ≡ 1)
        × (t.turns.shared.table_id.words ≡ 2) × (t.turns.shared.table_id.slots ≡ 1)
        × (t.turns.shared.key.home.value.table_id ≡ t.history.shared.table_id)
        × (0 < t.turns.shared.key.passes) };
}

impl<S: Told> Turnstile<S> {
    ghost use Rattle.turnstile.specs.Passes.{IsOf, AreNewPasses};
    ghost use Rattle.turnstile.specs.Knows.{Knows};

    /// A turnstile round a value that tells nothing yet, with its passes, which are numbered from 1
    /// as they stand in the list.
    pub fn new(
        alloc: Global,
        state: S,
        passes: u32,
    ) -> Result<(Turnstile<S>, Passes<S>), NotMade<S>>
        requires some { 0 < passes }
        requires empty { S.items state ≡ [] }
        ensures ok { IfOk result (λ r. (r.0.passes ≡ passes) × (r.0.fixed ≡ S.fixed state)) }
        ensures len { IfOk result (λ r. length r.1.list ≡ passes) }
        ensures passes { IfOk result (λ r. AreNewPasses r.0 r.1.list) }
        ensures err { IfErr result (λ e. e.state ≡ state) }
    {
        let Ok(list) = Vec::with_capacity(alloc, passes as usize) else {
            return Err(NotMade { state });
        };
        let Some((history, home, pasts)) = found::<S>(alloc, passes) else {
            return Err(NotMade { state });
        };
        let key = Key {
            passes,
            state: Snapshot::of(&state),
            home: Snapshot::of(&home),
        };
        let (turns, seat) = match enclose(alloc, &key, state, home) {
            Ok(enclosed) => enclosed,
            Err(refused) => return Err(refused),
        };
        let list = deal(&turns, seat, pasts, list);
        let turnstile = Turnstile {
            history,
            turns,
            sleepers: AtomicU64::new(0),
        };
        Ok((turnstile, Passes { list }))
    }

    /// Waits for a turn, and takes the value out. Its list begins with all that the pass had seen,
    /// and the pass's own items are those of its number. The turn has then seen the whole list.
    pub fn enter<R: Wait>(&self, rt: &R, pass: Pass<S>) -> (S, Inside<S>)
        requires { IsOf self.now pass }
        ensures known { IsIn S.by (S.items result.0) pass }
        ensures fixed { pass.fixed ≡ Some (S.fixed result.0) }
        ensures seen { result.1.seen ≡ S.items result.0 }
        ensures mine { result.1.mine ≡ pass.mine }
        ensures pass { IsOf self.now result.1
            × (result.1.number ≡ pass.number) × (result.1.fixed ≡ pass.fixed) }
        ensures number { 0 < pass.number }
    {
        let Pass { mut past, turn } = pass;
        let (turn, deposit) = self.take_turn(rt, turn);
        let Deposit { of: _, state, home } = deposit;
        self.history.shared.join_seat::<HomeIn>(&mut past, home);
        self.history.shared.load::<Looks<S>>(&mut past, 0);
        let taken = state.length();
        (state, Inside { past, turn, taken })
    }

    /// Puts the value back, and ends the turn. The value tells what it told when it was taken out,
    /// and then items of this pass. The pass has then seen all of them.
    pub fn leave(&self, inside: Inside<S>, state: S) -> Pass<S>
        requires turn { IsOf self.now inside }
        requires kept { IsPrefix inside.seen (S.items state) }
        requires own { All (λ item. S.by item ≡ inside.number) (added inside.seen (S.items state)) }
        requires fixed { inside.fixed ≡ Some (S.fixed state) }
        ensures seen { result.seen ≡ S.items state }
        ensures mine { result.mine ≡ inside.mine ++ added inside.seen (S.items state) }
        ensures pass { IsOf self.now result
            × (result.number ≡ inside.number) × (result.fixed ≡ inside.fixed) }
    {
        self.leave_by::<Brand>(inside, state)
    }

    /// Gives the value up, once all passes are back. It tells all that any pass has seen, and each
    /// pass's own items are those of its number. No item has the number of a pass that was never
    /// made.
    pub fn close(self, mut passes: Passes<S>) -> S
        requires all { length passes.list ≡ self.passes }
        requires passes { All (IsOf self) passes.list }
        ensures known { All (IsIn S.by (S.items result)) passes.list }
        ensures made { All (λ item. IsMade self.passes (S.by item)) (S.items result) }
        ensures fixed { S.fixed result ≡ self.fixed }
    {
        let Some(first) = passes.list.pop() else {
            unreachable!()
        };
        let (mut past, turn) = self.gather(first, passes.list);
        let Turnstile {
            history,
            turns,
            sleepers: _,
        } = self;
        let Deposit { of: _, state, home } = reopened(turns, turn);
        history.shared.join_seat::<HomeIn>(&mut past, home);
        history.shared.load::<Looks<S>>(&mut past, 0);
        state
    }

    // Draws a ticket, and takes the turn once it is served.
    fn take_turn<R: Wait>(
        &self,
        rt: &R,
        turn: Seat<Option<Deposit<S>>, Turn<S::Fixed>>,
    ) -> (Seat<Option<Deposit<S>>, Turn<S::Fixed>>, Deposit<S>)
        requires table { turn.table_id ≡ self.now.turns }
        requires rests { (turn.me.1 ≡ [])
            × (turn.me.0.tickets ≡ []) × (turn.me.0.holds ≡ 0) × (0 < turn.me.0.parts) }
        ensures seat { (result.0.table_id ≡ turn.table_id) × (result.0.me.1 ≡ (0, None) ∷ [])
            × (result.0.me.0.holds ≡ 1) × (result.0.me.0.parts ≡ turn.me.0.parts)
            × (result.0.me.0.history ≡ turn.me.0.history)
            × (result.0.me.0.fixed ≡ turn.me.0.fixed) }
        ensures deposit { (result.1.home.table_id ≡ id_of turn.me.0.history.table)
            × (result.1.home.me.0.made ≡ turn.me.0.history.passes)
            × (turn.me.0.fixed ≡ Some (S.fixed result.1.state)) }
    {
        let (mut turn, ticket) = self.draw_ticket(rt, turn);
        for _ in rt.forever() {
            let serving = self.turns.shared.load::<Takes<S>>(&mut turn, 1);
            if serving == ticket {
                return self.take_out(turn);
            }
        }
        unreachable!()
    }

    // Draws the ticket that is served, once no other is out. It is the next one.
    fn draw_ticket<R: Wait>(
        &self,
        rt: &R,
        mut turn: Seat<Option<Deposit<S>>, Turn<S::Fixed>>,
    ) -> (Seat<Option<Deposit<S>>, Turn<S::Fixed>>, u64)
        requires table { turn.table_id ≡ self.now.turns }
        requires rests { (turn.me.1 ≡ [])
            × (turn.me.0.tickets ≡ []) × (turn.me.0.holds ≡ 0) × (0 < turn.me.0.parts) }
        ensures table { result.0.table_id ≡ turn.table_id }
        ensures ticket { (t : ℕ)
            × (result.0.me ≡ (waiting turn.me.0 t, [])) × (result.1 ≡ t % 18446744073709551616) }
    {
        for _ in rt.forever() {
            let served = self.turns.shared.peek(1);
            if self.turns.shared.peek(0) == served {
                let next = served.wrapping_add(1);
                let found = self
                    .turns
                    .shared
                    .compare_exchange::<DrawsAt>(&mut turn, 0, served, next);
                if found == served {
                    return (turn, served);
                }
            } else {
                self.sleep(rt, served);
            }
        }
        unreachable!()
    }

    // Sleeps while this ticket is served. A thread that has slept wakes another one at the end of
    // its turn, since more may sleep.
    fn sleep<R: Wait>(&self, rt: &R, served: u64) {
        self.sleepers.store(1, SeqCst);
        self.turns
            .shared
            .park(rt, 1, (served % 4_294_967_296) as u32);
        self.sleepers.store(1, SeqCst);
    }

    // Empties the slot, which the seat holds.
    fn take_out(
        &self,
        mut turn: Seat<Option<Deposit<S>>, Turn<S::Fixed>>,
    ) -> (Seat<Option<Deposit<S>>, Turn<S::Fixed>>, Deposit<S>)
        requires table { turn.table_id ≡ self.now.turns }
        requires took { (a : _)
            × (turn.me.1 ≡ (0, Some a) ∷ []) × (a.home.table_id ≡ id_of turn.me.0.history.table)
            × (a.home.me.0.made ≡ turn.me.0.history.passes)
            × (turn.me.0.fixed ≡ Some (S.fixed a.state)) }
        ensures seat { (result.0.table_id ≡ turn.table_id)
            × (result.0.me ≡ (turn.me.0, (0, None) ∷ [])) }
        ensures deposit { (result.1.home.table_id ≡ id_of turn.me.0.history.table)
            × (result.1.home.me.0.made ≡ turn.me.0.history.passes)
            × (turn.me.0.fixed ≡ Some (S.fixed result.1.state)) }
    {
        let deposit = self.turns.shared.exchange(&mut turn, 0, None).unwrap();
        (turn, deposit)
    }

    // `leave`, with the new items by name.
    fn leave_by<J: News<S::Item>>(&self, inside: Inside<S>, state: S) -> Pass<S>
        requires turn { IsOf self.now inside }
        requires told { (S.items state ≡ inside.seen ++ J.news)
            × Each (λ y. S.by y ≡ inside.number) J.news }
        requires fixed { inside.fixed ≡ Some (S.fixed state) }
        ensures seen { result.seen ≡ S.items state }
        ensures mine { result.mine ≡ inside.mine ++ J.news }
        ensures pass { (result.history ≡ inside.history) × (result.turns ≡ inside.turns)
            × (result.number ≡ inside.number) × (result.fixed ≡ inside.fixed) }
    {
        let Inside {
            mut past,
            turn,
            taken,
        } = inside;
        let more = u64::from(state.length() - taken);
        self.history
            .shared
            .fetch_add::<Publishes<J>>(&mut past, 0, more);
        let home = self.history.shared.split_seat::<HomeOut>(&mut past);
        let deposit = Deposit {
            of: Of::new(),
            state,
            home,
        };
        let turn = self.put_back(turn, deposit);
        let slept = self.note_awake();
        let turn = self.end_turn(turn);
        self.wake(slept);
        Pass { past, turn }
    }

    // Fills the slot, which the seat holds.
    fn put_back(
        &self,
        mut turn: Seat<Option<Deposit<S>>, Turn<S::Fixed>>,
        deposit: Deposit<S>,
    ) -> Seat<Option<Deposit<S>>, Turn<S::Fixed>>
        requires table { turn.table_id ≡ self.now.turns }
        requires empty { turn.me.1 ≡ (0, None) ∷ [] }
        requires deposit { (deposit.home.table_id ≡ id_of turn.me.0.history.table)
            × (deposit.home.me.0.made ≡ turn.me.0.history.passes)
            × (turn.me.0.fixed ≡ Some (S.fixed deposit.state)) }
        ensures table { result.table_id ≡ turn.table_id }
        ensures view { result.me.0 ≡ turn.me.0 }
        ensures full { (a : _) × (result.me.1 ≡ (0, Some a) ∷ [])
            × (a.home.table_id ≡ id_of result.me.0.history.table)
            × (a.home.me.0.made ≡ result.me.0.history.passes)
            × (result.me.0.fixed ≡ Some (S.fixed a.state)) }
    {
        let old = self.turns.shared.exchange(&mut turn, 0, Some(deposit));
        let None = old else { unreachable!() };
        turn
    }

    // Whether a thread may sleep. From here on none does, unless it says so anew. That is noted
    // before the turn ends: who says so later sleeps during the next turn, and its thread has to
    // find that.
    fn note_awake(&self) -> bool {
        let slept = self.sleepers.load(SeqCst) != 0;
        if slept {
            self.sleepers.store(0, SeqCst);
        }
        slept
    }

    // Wakes a thread where one slept, or sleeps now.
    fn wake(&self, slept: bool) {
        if slept || self.sleepers.load(SeqCst) != 0 {
            self.turns.shared.wake_one(1);
        }
    }

    // Serves the next ticket. The slot, which the seat holds, is full again.
    fn end_turn(
        &self,
        mut turn: Seat<Option<Deposit<S>>, Turn<S::Fixed>>,
    ) -> Seat<Option<Deposit<S>>, Turn<S::Fixed>>
        requires table { turn.table_id ≡ self.now.turns }
        requires holds { (0 < turn.me.0.parts) × (0 < turn.me.0.holds) }
        requires full { (a : _)
            × (turn.me.1 ≡ (0, Some a) ∷ []) × (a.home.table_id ≡ id_of turn.me.0.history.table)
            × (a.home.me.0.made ≡ turn.me.0.history.passes)
            × (turn.me.0.fixed ≡ Some (S.fixed a.state)) }
        ensures table { result.table_id ≡ turn.table_id }
        ensures view { result.me ≡ (resting turn.me.0, []) }
    {
        self.turns.shared.fetch_add::<Advances>(&mut turn, 1, 1);
        turn
    }

    // Joins all passes into one.
    fn gather(
        &self,
        first: Pass<S>,
        mut passes: Vec<Pass<S>>,
    ) -> (
        Seat<(), Past<S::Item>>,
        Seat<Option<Deposit<S>>, Turn<S::Fixed>>,
    )
        requires { IsOf self.now first × Each (IsOf self.now) passes.items }
        ensures knows { Knows result.0.me.0 first × Each (Knows result.0.me.0) passes.items }
        ensures past { (result.0.table_id ≡ self.now.history)
            × (result.0.me.1 ≡ []) × (result.0.me.0.home ≡ 0) × (0 < result.0.me.0.number) }
        ensures turn { (result.1.table_id ≡ self.now.turns)
            × (result.1.me.1 ≡ []) × (result.1.me.0.tickets ≡ [])
            × (result.1.me.0.holds ≡ 0) × (result.1.me.0.parts ≡ vec_len passes + 1) }
    {
        let Pass { mut past, mut turn } = first;
        while let Some(pass) = passes.pop() {
            let Pass {
                past: other,
                turn: others,
            } = pass;
            self.history.shared.join_seat::<Joins>(&mut past, other);
            self.turns.shared.join_seat::<Together>(&mut turn, others);
        }
        (past, turn)
    }
}

// What lies in the slot, where one seat stands for all passes.
fn reopened<S: Told>(
    turns: Table<Option<Deposit<S>>, Turn<S::Fixed>, Key<S>, TurnRule<S>, Global>,
    turn: Seat<Option<Deposit<S>>, Turn<S::Fixed>>,
) -> Deposit<S>
    requires table { (turn.table_id ≡ turns.shared.table_id) × (turns.shared.table_id.slots ≡ 1) }
    requires all { (turn.me.0.parts ≡ turns.shared.key.passes) × (turn.me.0.holds ≡ 0) }
    ensures home { (result.home.table_id ≡ turns.shared.key.home.value.table_id)
        × (result.home.me.0.made ≡ turns.shared.key.passes) }
    ensures fixed { S.fixed result.state ≡ S.fixed turns.shared.key.state.value }
{
    let mut closed = turns.close_with(turn);
    let slot = closed.take(0);
    closed.free();
    let Some(deposit) = slot else { unreachable!() };
    deposit
}
