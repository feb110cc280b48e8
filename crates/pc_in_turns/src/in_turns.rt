ghost use Rattle.std.specs.Prelude.{◌≡◌, ◌≢◌, ◌+◌, ◌<◌, ◌≤◌, ◌⊎◌, ℕ, [], false, All, Bool, IfNone, IfOk, IfSome, None, OnOk, Some, length, slice_get};
ghost use Rattle.pc_base.specs.declared.actor.ActorId.{ActorId as Whose};
ghost use Rattle.pc_in_turns.specs.InTurns.{HaveGoneInTurns};
ghost use Rattle.pc_in_turns.specs.Learning.{OwnerWasUntold};
ghost use Rattle.pc_in_turns.specs.Moving.{AreClientsInTurns, GoOut, HasActed, HasFollowed, HasFollowedInRounds, HasMadeRoundAt, HasNoLast, HaveGoneOn, HaveMovedAt, HasNoneLeftAt, HaveRoundedAt, IsAt, IsOpening, IsTask, RecoverOut, TakeTurns, TakesTurn, TellsLast};
ghost use Rattle.pc_in_turns.specs.Task.{DoesTask, EndsWithTask};
ghost use Rattle.pc_rounds.specs.Counted.{entries_made};
ghost use Rattle.pc_runs.specs.Order.{rounds_in_work};
ghost use Rattle.pc_runs.specs.Recoverers.{HaveNoRoundLeft};
ghost use Rattle.pc_runs.specs.Runners.{AreRunOut};
ghost use Rattle.pc_runs.specs.Together.{AreAtEnds, AreClients, HaveClientClocks};
ghost use Rattle.pc_scripted.specs.Learning.{learnt_ahead};
ghost use Rattle.pc_scripted.specs.Scripted.{own_list};
ghost use Rattle.pc_scripted.specs.Taking.{AsksInTurn, FinishesInTurn, GoesUntil, IsRunOut, TakesNextAlone, are_items_over, is_script_over};
ghost use Rattle.pc_turns.specs.Order.{recoverer_turns};
ghost use Rattle.pc_work.specs.Named.{IsTurnOf};
ghost use Rattle.pc_work.specs.declared.turn.Turn.TheVariants as turns;

use crate::task::Task;
use pc_base::{NoMemory, TxnId};
use pc_clock::Clock;
use pc_history::{Named, Note};
use pc_range::{CommitWorld, Gate};
use pc_rounds::{Clients, CountedRecoverer};
use pc_scripted::Scripted;
use pc_session::Token;
use pc_wire::Wire;
use pc_work::{Turn, Workload};
use std::marker::Model;
use std::sync::Wait;
use std::thread::Threads;

/// Brings the sessions and recoverers of a workload through its turns to their ends: the first session goes on by itself until its opening is
/// over, then each turn that is stated is taken, then each session goes to the end of its script, one after another, and then each recoverer
/// makes the rounds that are left to it.
pub fn go_in_turns<
    'a,
    N: Named<CommitWorld> + Send + Sync,
    C: Clock + Drop,
    V: Wire + Drop,
    G: Gate + Sync,
    R: Wait + Threads + Sync,
>(
    rt: &R,
    work: &'a Workload,
    stated: &[Turn],
    sessions: Vec<Scripted<'a, N, C, V, G>>,
    recoverers: Vec<CountedRecoverer<'a, N, C, V, G>>,
) -> Result<Clients<'a, N, C, V, G>, NoMemory>
    requires clients { AreClients work.now (record { sessions = sessions.items; recoverers = recoverers.items }) }
    requires fresh { All (λ s. own_list s ≡ []) sessions.items }
    requires fresh_recoverers { All (λ r. entries_made r ≡ []) recoverers.items }
    requires some_session { 1 ≤ length work.now.sessions }
    requires turns { All (IsTurnOf (length work.now.sessions) (length work.now.recoverers)) stated.now }
    ensures clients { IfOk result (λ gone. AreClients work.now (record { sessions = gone.0.items; recoverers = gone.1.items })) }
    ensures clocks { IfOk result (λ gone. (rules : Whose → ℕ → ℕ → Bool) → HaveClientClocks C.rule rules work.now (record { sessions = sessions.entry.items; recoverers = recoverers.entry.items }) → HaveClientClocks C.rule rules work.now (record { sessions = gone.0.items; recoverers = gone.1.items })) }
    ensures over { IfOk result (λ gone. AreAtEnds (record { sessions = gone.0.items; recoverers = gone.1.items })) }
    ensures order { IfOk result (λ gone. HaveGoneInTurns work.now stated.now (record { sessions = gone.0.items; recoverers = gone.1.items })) }
{
    let mut turns = InTurns {
        work,
        sessions,
        recoverers,
        last: 0,
    };
    turns.open(rt)?;
    turns.take_all(rt, stated)?;
    turns.run_out(rt)?;
    turns.recover_out(rt)?;
    Ok((turns.sessions, turns.recoverers))
}

/// The sessions and recoverers of a workload, which move one after another.
#[derive(Drop)]
struct InTurns<'a, N: Named<CommitWorld>, C: Clock, V: Wire, G> {
    work: &'a Workload,
    sessions: Vec<Scripted<'a, N, C, V, G>>,
    recoverers: Vec<CountedRecoverer<'a, N, C, V, G>>,
    /// The index of the client that made the last entry: the sessions stand first, and the recoverers behind them.
    last: usize,
}

impl<'a, N: Named<CommitWorld>, C: Clock, V: Wire, G> Model for InTurns<'a, N, C, V, G> {
    ghost use Rattle.pc_in_turns.specs.Moving.{TurnsMeaning};

    ghost Value = { TurnsMeaning C };

    ghost view = { λ t. record { work = t.work.now; sessions = t.sessions.items; recoverers = t.recoverers.items; last = t.last } };
}

impl<'a, N: Named<CommitWorld>, C: Clock + Drop, V: Wire + Drop, G: Gate> InTurns<'a, N, C, V, G> {
    /// Each recoverer, in order, makes the rounds that are left to it.
    fn recover_out<R: Wait>(&mut self, rt: &R) -> Result<(), NoMemory>
        requires { AreClientsInTurns self.old }
        ensures gone { OnOk result (HaveGoneOn C.rule (RecoverOut self.old.work (length self.old.work.recoverers)) self.old self.new) }
        ensures sessions { OnOk result (self.new.sessions ≡ self.old.sessions) }
        ensures over { OnOk result (HaveNoRoundLeft self.new.recoverers) }
    {
        for index in 0..self.recoverers.len() {
            self.recover_all(rt, index)?;
        }
        Ok(())
    }

    /// The recoverer of this index takes as many turns as it makes rounds.
    fn recover_all<R: Wait>(&mut self, rt: &R, index: usize) -> Result<(), NoMemory>
        requires in_turns { AreClientsInTurns self.old }
        requires there { index < length self.old.recoverers }
        ensures gone { OnOk result (HaveGoneOn C.rule (TakeTurns self.old.work (recoverer_turns (index + 1) (rounds_in_work self.old.work (index + 1)))) self.old self.new) }
        ensures sessions { OnOk result (self.new.sessions ≡ self.old.sessions) }
        ensures others { OnOk result ((other : ℕ) → other ≢ index → slice_get self.new.recoverers other ≡ slice_get self.old.recoverers other) }
        ensures over { OnOk result (HasNoneLeftAt index self.new.recoverers) }
    {
        let rounds = self.recoverers[index].rounds();
        let mut taken = 0;
        while taken < rounds {
            self.recover(rt, index)?;
            taken += 1;
        }
        Ok(())
    }

    /// The recoverer of this index makes its next round, behind all that was done before.
    fn recover<R: Wait>(&mut self, rt: &R, index: usize) -> Result<(), NoMemory>
        requires in_turns { AreClientsInTurns self.old }
        requires there { index < length self.old.recoverers }
        ensures gone { OnOk result (HaveGoneOn C.rule (TakesTurn self.old.work (turns.Recoverer (index + 1))) self.old self.new) }
        ensures others { OnOk result (HaveRoundedAt index self.old self.new) }
    {
        self.follow_in_rounds(index)?;
        let entries = self.recoverers[index].len();
        self.round(rt, index)?;
        if self.recoverers[index].len() > entries {
            self.last = self.sessions.len() + index;
        }
        Ok(())
    }

    /// The recoverer of this index makes its next round.
    fn round<R: Wait>(&mut self, rt: &R, index: usize) -> Result<(), NoMemory>
        requires in_turns { AreClientsInTurns self.old }
        requires there { index < length self.old.recoverers }
        ensures { OnOk result (HasMadeRoundAt C.rule index self.old self.new) }
    {
        self.recoverers[index].round(rt)
    }

    /// The recoverer of this index knows from now on the last entry that was made.
    fn follow_in_rounds(&mut self, index: usize) -> Result<(), NoMemory>
        requires in_turns { AreClientsInTurns self.old }
        requires there { index < length self.old.recoverers }
        ensures { OnOk result (HasFollowedInRounds index self.old self.new) }
    {
        if let Some(mark) = self.last_mark()? {
            self.recoverers[index].follow(mark);
        }
        Ok(())
    }

    /// A note of the last entry that was made. None where none was.
    fn last_mark(&mut self) -> Result<Option<Note<CommitWorld, N>>, NoMemory>
        requires { AreClientsInTurns self.old }
        ensures note { IfOk result (λ mark. IfSome mark (λ n. TellsLast self.old n.known)) }
        ensures none { IfOk result (λ mark. IfNone mark (HasNoLast self.old)) }
        ensures same { self.new ≡ self.old }
    {
        let sessions = self.sessions.len();
        if self.last < sessions {
            self.sessions[self.last].mark()
        } else {
            self.recoverers[self.last - sessions].mark()
        }
    }

    /// The session of this index knows from now on the last entry that was made.
    fn follow_last(&mut self, index: usize) -> Result<(), NoMemory>
        requires in_turns { AreClientsInTurns self.old }
        requires there { index < length self.old.sessions }
        ensures { OnOk result (HasFollowed index self.old self.new) }
    {
        if let Some(mark) = self.last_mark()? {
            self.sessions[index].follow(mark);
        }
        Ok(())
    }

    /// The session of this index does its oldest job.
    fn finish_job<R: Wait>(&mut self, rt: &R, index: usize) -> Result<(), NoMemory>
        requires in_turns { AreClientsInTurns self.old }
        requires there { index < length self.old.sessions }
        ensures { OnOk result (HasActed C.rule FinishesInTurn index self.old self.new) }
    {
        self.sessions[index].finish_job(rt)
    }

    /// The session of this index asks its script's next call, which learns of this transaction: by a token of the session that began it, where
    /// that was told of its commit.
    fn learn(&mut self, index: usize, id: TxnId) -> Result<(), NoMemory>
        requires in_turns { AreClientsInTurns self.old }
        requires there { index < length self.old.sessions }
        requires next { IsAt (λ s. learnt_ahead s ≡ Some id) index self.old }
        ensures { OnOk result (HasActed C.rule AsksInTurn index self.old self.new) }
    {
        let token = self.token(id)?;
        self.sessions[index].learn(id, token)
    }

    /// A token of the commit of this transaction, from the session that began it. None where that was not told of it, or is none of these.
    fn token(&mut self, id: TxnId) -> Result<Option<Token<N>>, NoMemory>
        ensures token { IfOk result (λ token. IfSome token (λ t. t.id ≡ id)) }
        ensures none { IfOk result (λ token. IfNone token (OwnerWasUntold id self.old.sessions)) }
        ensures same { self.new ≡ self.old }
    {
        match place_of(id.session, self.sessions.len()) {
            Some(place) => self.sessions[place].token(id),
            None => Ok(None),
        }
    }
}

impl<
    'a,
    N: Named<CommitWorld> + Send + Sync,
    C: Clock + Drop,
    V: Wire + Drop,
    G: Gate + Sync,
> InTurns<'a, N, C, V, G> {
    /// The first session goes on by itself until the opening is over.
    fn open<R: Wait + Threads + Sync>(&mut self, rt: &R) -> Result<(), NoMemory>
        requires { AreClientsInTurns self.old }
        ensures { OnOk result (HaveGoneOn C.rule (IsOpening self.old.work) self.old self.new) }
    {
        let items = self.work.opening as usize;
        self.go(rt, 0, Task::Open(items))
    }

    /// Takes these turns, one after another.
    fn take_all<R: Wait + Threads + Sync>(
        &mut self,
        rt: &R,
        stated: &[Turn],
    ) -> Result<(), NoMemory>
        requires in_turns { AreClientsInTurns self.old }
        requires there { All (IsTurnOf (length self.old.work.sessions) (length self.old.work.recoverers)) stated.now }
        ensures { OnOk result (HaveGoneOn C.rule (TakeTurns self.old.work stated.now) self.old self.new) }
    {
        for turn in stated {
            self.take(rt, *turn)?;
        }
        Ok(())
    }

    /// Takes one turn: a session's next call, its oldest job, or a recoverer's next round.
    fn take<R: Wait + Threads + Sync>(&mut self, rt: &R, turn: Turn) -> Result<(), NoMemory>
        requires in_turns { AreClientsInTurns self.old }
        requires there { IsTurnOf (length self.old.work.sessions) (length self.old.work.recoverers) turn }
        ensures { OnOk result (HaveGoneOn C.rule (TakesTurn self.old.work turn) self.old self.new) }
    {
        match turn {
            Turn::Session(number) => self.go(rt, number as usize - 1, Task::Call),
            Turn::Job(number) => self.go(rt, number as usize - 1, Task::Job),
            Turn::Recoverer(number) => self.recover(rt, number as usize - 1),
        }
    }

    /// Each session, in order, goes on by itself to the end of its script.
    fn run_out<R: Wait + Threads + Sync>(&mut self, rt: &R) -> Result<(), NoMemory>
        requires { AreClientsInTurns self.old }
        ensures gone { OnOk result (HaveGoneOn C.rule (GoOut self.old.work (length self.old.work.sessions)) self.old self.new) }
        ensures over { OnOk result (AreRunOut self.new.sessions) }
    {
        for index in 0..self.sessions.len() {
            self.go(rt, index, Task::Rest)?;
        }
        Ok(())
    }

    /// The session of this index does its task, behind all that was done before.
    fn go<R: Wait + Threads + Sync>(
        &mut self,
        rt: &R,
        index: usize,
        task: Task,
    ) -> Result<(), NoMemory>
        requires in_turns { AreClientsInTurns self.old }
        requires there { index < length self.old.sessions }
        ensures gone { OnOk result (HaveGoneOn C.rule (IsTask self.old.work task index) self.old self.new) }
        ensures others { OnOk result (HaveMovedAt index task self.old.sessions self.new.sessions) }
    {
        self.follow_last(index)?;
        let entries = self.sessions[index].len();
        self.act(rt, index, task)?;
        if self.sessions[index].len() > entries {
            self.last = index;
        }
        Ok(())
    }

    /// The session of this index does its task.
    fn act<R: Wait + Threads + Sync>(
        &mut self,
        rt: &R,
        index: usize,
        task: Task,
    ) -> Result<(), NoMemory>
        requires in_turns { AreClientsInTurns self.old }
        requires there { index < length self.old.sessions }
        ensures acted { OnOk result (HasActed C.rule (DoesTask task) index self.old self.new) }
        ensures ends { OnOk result (IsAt (EndsWithTask task) index self.new) }
    {
        match task {
            Task::Open(items) => self.go_until(rt, index, items),
            Task::Call => self.call(rt, index),
            Task::Job => self.finish_job(rt, index),
            Task::Rest => self.go_to_end(rt, index),
        }
    }

    /// The session of this index goes on by itself until so many items of its script are over.
    fn go_until<R: Wait + Threads + Sync>(
        &mut self,
        rt: &R,
        index: usize,
        items: usize,
    ) -> Result<(), NoMemory>
        requires in_turns { AreClientsInTurns self.old }
        requires there { index < length self.old.sessions }
        ensures { OnOk result (HasActed C.rule (λ s. GoesUntil s (are_items_over items s.at.reruns s.script)) index self.old self.new) }
    {
        for _ in rt.forever() {
            if self.sessions[index].is_opened(items) {
                return Ok(());
            }
            self.go_on(rt, index)?;
        }
        unreachable!()
    }

    /// The session of this index goes on by itself to the end of its script.
    fn go_to_end<R: Wait + Threads + Sync>(&mut self, rt: &R, index: usize) -> Result<(), NoMemory>
        requires in_turns { AreClientsInTurns self.old }
        requires there { index < length self.old.sessions }
        ensures acted { OnOk result (HasActed C.rule (λ s. GoesUntil s (is_script_over s.at.reruns s.script)) index self.old self.new) }
        ensures over { OnOk result (IsAt IsRunOut index self.new) }
    {
        for _ in rt.forever() {
            if self.sessions[index].is_run_out() {
                return Ok(());
            }
            self.go_on(rt, index)?;
        }
        unreachable!()
    }

    /// What the session of this index does by itself: its oldest job where one waits, else its script's next call.
    fn go_on<R: Wait + Threads + Sync>(&mut self, rt: &R, index: usize) -> Result<(), NoMemory>
        requires in_turns { AreClientsInTurns self.old }
        requires there { index < length self.old.sessions }
        requires going { IsAt (λ s. s.session.desk.log.stopped ≡ false) index self.old }
        ensures { OnOk result (HasActed C.rule TakesNextAlone index self.old self.new) }
    {
        if self.sessions[index].has_job() {
            self.finish_job(rt, index)
        } else {
            self.call(rt, index)
        }
    }

    /// The session of this index asks its script's next call.
    fn call<R: Wait + Threads + Sync>(&mut self, rt: &R, index: usize) -> Result<(), NoMemory>
        requires in_turns { AreClientsInTurns self.old }
        requires there { index < length self.old.sessions }
        ensures { OnOk result (HasActed C.rule AsksInTurn index self.old self.new) }
    {
        match self.sessions[index].learns() {
            Some(id) => self.learn(index, id),
            None => self.turn(rt, index),
        }
    }

    /// The session of this index asks its script's next call, which is no learn.
    fn turn<R: Wait + Threads + Sync>(&mut self, rt: &R, index: usize) -> Result<(), NoMemory>
        requires in_turns { AreClientsInTurns self.old }
        requires there { index < length self.old.sessions }
        requires other { IsAt (λ s. learnt_ahead s ≡ None) index self.old }
        ensures { OnOk result (HasActed C.rule AsksInTurn index self.old self.new) }
    {
        self.sessions[index].turn(rt)
    }
}

/// The place of the session of this number among so many sessions. None where it is none of them.
fn place_of(session: u32, sessions: usize) -> Option<usize>
    ensures some { IfSome result (λ place. (place + 1 ≡ session) × (place < sessions)) }
    ensures none { IfNone result ((session ≡ 0) ⊎ (sessions < session)) }
{
    let place = (session as usize).checked_sub(1)?;
    if place < sessions { Some(place) } else { None }
}
