//! Judging a move on a view.

ghost use Rattle.std.specs.Prelude.{◌≡◌, ℕ, ◌<◌, ◌++◌, length, map, false, pos, None, Some, slice_index, IfOk, OnOk};
ghost use Rattle.fab_site.specs.Placement.{IsLegal, IsSwapOf};
ghost use Rattle.fab_move.specs.declared.marks.Mark.TheVariants.{Net as net_mark};
ghost use Rattle.fab_move.specs.declared.proposals.Proposal.TheVariants.{Move as proposes};
ghost use Rattle.fab_move.specs.Judge.{IsDecision, block_marks, footprint as footprint_is, judged, judged_as, problem, says};
ghost use Rattle.fab_move.specs.Propose.{proposal};

use crate::acceptance::accepts;
use crate::marks::{Footprint, Mark};
use crate::proposals::{Proposal, propose};
use crate::verdicts::{Decision, Verdict, View};
use fab_cost::WireCost;
use fab_net::{BlockId, Design, NetId};
use fab_site::{Swap, Words};
use smallvec::SmallVec;
use std::alloc::{AllocError, Global};

/// Judges move `k` on a view: its swap, the change of cost, whether it is accepted, and the marks that this rests on. The placement must be
/// legal, and the wire cost must be that of the placement. Fails only if memory runs out.
pub fn judge<C: WireCost, W: Words>(
    alloc: Global,
    view: &View<'_, C, W>,
    k: u64,
) -> Result<Verdict, AllocError>
    requires legal { IsLegal view.now.design.now view.now.grid.now view.now.fixed.now
        view.now.placement.now.sites }
    requires stands { C.StandsFor view.now.cost.now view.now.design.now view.now.grid.now
        view.now.placement.now.sites }
    ensures number { IfOk result (λ v. v.k ≡ k) }
    ensures lawful { IfOk result (λ v.
        (s : Swap) → v.swap ≡ Some s → IsSwapOf view.now.grid.now view.now.placement.now.sites s) }
    ensures judged { IfOk result (λ v.
        says v ≡ judged
        (problem view.now.design.now view.now.grid.now view.now.fixed.now
        (W.moves view.now.words.now)) view.now.placement.now.sites k view.now.t
        view.now.range) }
{
    let (proposal, word) = proposed(view, k);
    let footprint = footprint_of(alloc, view.design, proposal)?;
    let decision = weigh(view, proposal, word);
    Ok(Verdict {
        k,
        swap: decision.swap,
        delta: decision.delta,
        accepted: decision.accepted,
        footprint,
    })
}

/// Decides move `k` on a view: the result of [`judge`] without the footprint. The placement must be legal, and the wire cost must be that
/// of the placement. Allocates nothing.
pub fn decide<C: WireCost, W: Words>(view: &View<'_, C, W>, k: u64) -> Decision
    requires legal { IsLegal view.now.design.now view.now.grid.now view.now.fixed.now
        view.now.placement.now.sites }
    requires stands { C.StandsFor view.now.cost.now view.now.design.now view.now.grid.now
        view.now.placement.now.sites }
    ensures lawful { (s : Swap) → result.swap ≡ Some s →
        IsSwapOf view.now.grid.now view.now.placement.now.sites s }
    ensures decided { IsDecision result
        (judged (problem view.now.design.now view.now.grid.now view.now.fixed.now
        (W.moves view.now.words.now)) view.now.placement.now.sites k view.now.t
        view.now.range) }
{
    let (proposal, word) = proposed(view, k);
    weigh(view, proposal, word)
}

impl<'a, C, W> View<'a, C, W> {
    /// What `words` propose on this view, as [`propose`](crate::propose) returns it. Allocates nothing.
    #[inline(always)]
    pub fn propose(&self, words: [u32; 4]) -> Proposal
        requires legal { IsLegal self.now.design.now self.now.grid.now self.now.fixed.now
            self.now.placement.now.sites }
        ensures value { result ≡
            proposal self.now.design.now self.now.grid.now self.now.fixed.now
            self.now.placement.now.sites self.now.range words }
        ensures lawful { (s : Swap) → result ≡ proposes s →
            IsSwapOf self.now.grid.now self.now.placement.now.sites s }
    {
        propose(
            self.design,
            self.grid,
            self.fixed,
            self.placement,
            self.range,
            words,
        )
    }
}

/// What move `k` proposes, and the word that decides whether it is accepted.
#[inline(always)]
fn proposed<C: WireCost, W: Words>(view: &View<'_, C, W>, k: u64) -> (Proposal, u32)
    requires legal { IsLegal view.now.design.now view.now.grid.now view.now.fixed.now
        view.now.placement.now.sites }
    ensures value { result.0 ≡
        proposal view.now.design.now view.now.grid.now view.now.fixed.now
        view.now.placement.now.sites view.now.range (W.moves view.now.words.now k) }
    ensures lawful { (s : Swap) → result.0 ≡ proposes s →
        IsSwapOf view.now.grid.now view.now.placement.now.sites s }
    ensures word { result.1 ≡ slice_index (W.moves view.now.words.now k) 3 }
{
    let words = view.words.move_words(k);
    let proposal = view.propose(words);
    (proposal, words[3])
}

/// The change of cost that a proposal makes, and whether `word` accepts it. A proposed swap must fit the placement, as those of
/// [`propose`](crate::propose) do, and the wire cost must be that of the placement. Allocates nothing.
#[inline(always)]
pub fn weigh<C: WireCost, W: Words>(
    view: &View<'_, C, W>,
    proposal: Proposal,
    word: u32,
) -> Decision
    requires stands { C.StandsFor view.now.cost.now view.now.design.now view.now.grid.now
        view.now.placement.now.sites }
    requires lawful { (s : Swap) → proposal ≡ proposes s →
        IsSwapOf view.now.grid.now view.now.placement.now.sites s }
    ensures lawful { (s : Swap) → result.swap ≡ Some s →
        IsSwapOf view.now.grid.now view.now.placement.now.sites s }
    ensures decided { IsDecision result
        (judged_as (problem view.now.design.now view.now.grid.now view.now.fixed.now
        (W.moves view.now.words.now)) view.now.placement.now.sites view.now.t word proposal) }
{
    match proposal {
        Proposal::Move(swap) => {
            let delta = view
                .cost
                .delta(view.design, view.grid, view.placement, &swap);
            Decision {
                swap: Some(swap),
                delta,
                accepted: accepts(delta, view.t, word),
            }
        }
        Proposal::Nothing => without_swap(),
        Proposal::Void(_, _) => without_swap(),
    }
}

/// The decision for a move that proposes no swap.
fn without_swap() -> Decision
    ensures { result ≡ record { swap = None; delta = pos 0; accepted = false } }
{
    Decision {
        swap: None,
        delta: 0,
        accepted: false,
    }
}

/// The footprint of a proposal: the marks that a decision on it looks at. Fails only if memory runs out.
pub fn footprint_of(
    alloc: Global,
    design: &Design,
    proposal: Proposal,
) -> Result<Footprint, AllocError>
    requires block { (s : Swap) → proposal ≡ proposes s → s.block.0 < length design.now.kinds }
    requires other { (s : Swap) (b : BlockId) → proposal ≡ proposes s → s.other ≡ Some b →
        b.0 < length design.now.kinds }
    ensures { IfOk result (λ f. f.items ≡ footprint_is design.now proposal) }
{
    let mut footprint = SmallVec::new(alloc);
    match proposal {
        Proposal::Nothing => {}
        Proposal::Void(block, target) => {
            footprint.push(Mark::Place(target))?;
            footprint.push(Mark::Block(block))?;
        }
        Proposal::Move(swap) => {
            footprint.push(Mark::Place(swap.to))?;
            push_block(&mut footprint, design, swap.block)?;
            if let Some(other) = swap.other {
                push_block(&mut footprint, design, other)?;
            }
        }
    }
    Ok(footprint)
}

/// Adds the marks of a block and its nets.
fn push_block(footprint: &mut Footprint, design: &Design, block: BlockId) -> Result<(), AllocError>
    requires { block.0 < length design.now.kinds }
    ensures { OnOk result
        (footprint.new.items ≡ footprint.old.items ++ block_marks design.now block) }
{
    footprint.push(Mark::Block(block))?;
    push_nets(footprint, design.nets_of(block))?;
    Ok(())
}

/// Adds the marks of nets.
fn push_nets(footprint: &mut Footprint, nets: &[NetId]) -> Result<(), AllocError>
    ensures { OnOk result (footprint.new.items ≡ footprint.old.items ++ map net_mark nets.now) }
{
    for net in nets {
        footprint.push(Mark::Net(*net))?;
    }
    Ok(())
}
