//! The owner's end of a crew that follows it.

ghost use Rattle.std.specs.Prelude.{◌≡◌, ◌+◌, ◌<◌, ◌≤◌, [], List, false, true, length, Some, Option, IfOk, IfSome};
ghost use Rattle.fab_commit.specs.Serial.{Run, Standing};
ghost use Rattle.fab_commit.specs.Run.Behind.{MayBeFollowed, after_post};
ghost use Rattle.fab_commit.specs.Run.Foreseen.{AreForeseen, IsForeseen};
ghost use Rattle.fab_commit.specs.Run.Followed.{IsTied};

use crate::run::behind::Pursue;
use crate::run::foreseen::Foreseen;
use crate::run::post::Post;
use crate::run::swaps::Accepted;
use fab_board::follow_lead::Lead;
use fab_board::{Boarding, Naming, Origin, Sheet};
use std::alloc::{AllocError, Global};
use std::marker::Model;
use std::mem;
use std::sync::Wait;

/// The owner's end of a crew that follows it, and the sheet that it reads. Contracts see what was posted, and the posts after which this
/// turn's answers are judged.
#[derive(Drop)]
pub(crate) struct Followers<S: Pursue, J: Naming + Boarding + Origin<S>> {
    lead: Lead<S, Post, Foreseen, J>,
    sheet: Sheet<S, Post, Foreseen, J>,
    /// The list of swaps of an older post, to be used again.
    spare: Vec<Accepted>,
}

impl<S: Pursue, J: Naming + Boarding + Origin<S>> Model for Followers<S, J> {
    ghost use Rattle.std.specs.Prelude.{List};
    ghost use Rattle.fab_commit.specs.declared.run.post.Post.{Post as IsPost};

    ghost Value = { List IsPost × List IsPost };

    ghost view = { λ f. f.lead };
}

impl<S: Pursue, J: Naming + Boarding + Origin<S>> Followers<S, J> {
    /// From now on the owner has to decide the moves that no worker judges.
    pub(crate) fn leave_to_owner(&mut self)
        ensures { self.new ≡ self.old }
    {
        self.lead.leave_to_owner();
    }

    /// The owner's end of a crew, and a sheet. An error means that memory ran out.
    pub(crate) fn new(
        alloc: Global,
        lead: Lead<S, Post, Foreseen, J>,
    ) -> Result<Followers<S, J>, AllocError>
        ensures { IfOk result (λ f. f ≡ lead) }
    {
        let sheet = lead.sheet(alloc)?;
        Ok(Followers {
            lead,
            sheet,
            spare: Vec::new(alloc),
        })
    }

    /// Gets ready what is foreseen of move `number` on the placement of this turn's base. Returns false if there is nothing.
    pub(crate) fn seek<R: Wait>(&mut self, rt: &R, number: u64) -> bool
        ensures { self.new ≡ self.old }
    {
        self.lead.seek(rt, number, &mut self.sheet)
    }

    /// If a worker has taken move `number`, gets ready what is foreseen of it on the placement of this turn's base. Returns how many moves
    /// from `number` on are left to the owner, as [`Lead::look`] does. Returns 0 if the answer is ready, or if there is none.
    pub(crate) fn look<R: Wait>(&mut self, rt: &R, number: u64) -> u64
        ensures { self.new ≡ self.old }
    {
        self.lead.look(rt, number, &mut self.sheet)
    }

    /// What is foreseen of a move, if it is ready.
    pub(crate) fn foreseen(&self, number: u64) -> Option<&Foreseen>
        ensures { IfSome result (λ v.
            (r : Run) (x : Standing) → IsTied S.run S.standing S.after J.start self.now.1 r x →
            IsForeseen r x number v.now) }
    {
        self.lead.answer(number, &self.sheet)
    }

    /// What is foreseen of the moves from `number` on, at most `most` of them, as far as it is ready.
    pub(crate) fn foreseen_from(&self, number: u64, most: u64) -> &[Foreseen]
        ensures most { length result.now ≤ most }
        ensures each { (r : Run) (x : Standing) →
            IsTied S.run S.standing S.after J.start self.now.1 r x →
            AreForeseen r x number result.now }
    {
        self.lead.answers(number, most, &self.sheet)
    }

    /// An empty list for the swaps of the next turn.
    pub(crate) fn fresh(&mut self) -> Vec<Accepted>
        ensures same { self.new ≡ self.old }
        ensures empty { result.items ≡ [] }
    {
        let alloc = *self.spare.allocator();
        let mut fresh = mem::replace(&mut self.spare, Vec::new(alloc));
        fresh.clear();
        fresh
    }

    /// Posts what the owner made. Returns false if the crew did not get it, because there were too many posts.
    pub(crate) fn post<R: Wait>(&mut self, rt: &R, post: Post) -> bool
        requires may { (r : Run) × (x : Standing) ×
            IsTied S.run S.standing S.after J.start self.old.0 r x × MayBeFollowed r x post }
        ensures base { result ≡ true → self.new.1 ≡ self.old.0 }
        ensures tied { (r : Run) (x : Standing) →
            IsTied S.run S.standing S.after J.start self.old.0 r x → result ≡ true →
            IsTied S.run S.standing S.after J.start self.new.0 r (after_post x post) }
    {
        match self.lead.post(rt, post) {
            Ok(Some(older)) => {
                self.spare = older.swaps;
                true
            }
            Ok(None) => true,
            Err(_) => false,
        }
    }
}
