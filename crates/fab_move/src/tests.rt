ghost use Rattle.std.specs.Prelude.{◌≡◌, ◌<◌, [], IfOk};
ghost use Rattle.fab_site.specs.Placement.{IsLegal};

use crate::move_tables::wanted_lines;
use crate::{
    Decision, Mark, Proposal, StreamWords, Verdict, View, accepts, decide, judge, propose, weigh,
};
use fab_arch::{Grid, Site, read_arch};
use fab_cost::EdgeBoxes;
use fab_net::{BlockId, Design, read_net};
use fab_site::{Fixed, ListWords, Pins, Placement, Swap, Words, is_legal, start};
use std::alloc::{AllocError, Global};
use std::test::*;

const HALF: u32 = 2_147_483_648;

const QUARTER: u32 = 1_073_741_824;

const MOST: u32 = 4_294_967_295;

fn site(x: u16, y: u16, sub: u16) -> Site {
    Site { x, y, sub }
}

fn swap(block: u32, from: Site, to: Site, other: Option<u32>) -> Swap {
    Swap {
        block: BlockId(block),
        from,
        to,
        other: other.map(BlockId),
    }
}

// A design on an array, with some of its blocks fixed.
struct Placed {
    design: Design,
    grid: Grid,
    fixed: Fixed,
    placement: Placement,
}

impl Drop for Placed {
    // This is one call at each exit of a test. A derived `drop` would be proved again at each.
    fn drop(self) {
        let Placed {
            design: _,
            grid: _,
            fixed: _,
            placement: _,
        } = self;
    }
}

fn no_pins(alloc: Global) -> Pins
    ensures { (result.fixed ≡ []) × (result.begun ≡ []) }
{
    Pins {
        fixed: Fixed::none(alloc),
        begun: Fixed::none(alloc),
    }
}

// The start placement by these words, with no block pinned.
fn started<W: Words>(
    alloc: Global,
    design: &Design,
    grid: &Grid,
    words: &W,
) -> Result<Placement, Fail> {
    grid.holds(design.logic_blocks(), design.pads())?;
    Ok(start(alloc, design, grid, &no_pins(alloc), words)?)
}

// The same from texts, with no block fixed.
fn placed_at_start<W: Words>(
    alloc: Global,
    arch: &[u8],
    net: &[u8],
    grid: Grid,
    words: &W,
) -> Result<Placed, Fail> {
    let arch = read_arch(alloc, arch)?;
    let design = read_net(alloc, net, &arch)?;
    let placement = started(alloc, &design, &grid, words)?;
    Ok(Placed {
        design,
        grid,
        fixed: Fixed::none(alloc),
        placement,
    })
}

// Fixes a block at its site.
fn fix(placed: &mut Placed, block: u32) -> Result<(), Fail> {
    let block = BlockId(block);
    if (block.0 as usize) < placed.placement.blocks() && placed.fixed.site_of(block).is_none() {
        let site = placed.placement.site_of(block);
        placed.fixed.fix(block, site)?;
    }
    Ok(())
}

fn fix_each(placed: &mut Placed, blocks: &[u32]) -> Result<(), Fail> {
    for block in blocks {
        fix(placed, *block)?;
    }
    Ok(())
}

// What four words propose; `None` if the placement is not legal.
fn proposed(placed: &Placed, range: u64, words: [u32; 4]) -> Option<Proposal> {
    let Placed {
        design,
        grid,
        fixed,
        placement,
    } = placed;
    if !is_legal(design, grid, fixed, placement) {
        return None;
    }
    Some(propose(design, grid, fixed, placement, range, words))
}

// The verdict on a move. Fails if the placement is not legal, or if `decide`, `weigh` and `judge` differ.
fn judged<W: Words>(
    alloc: Global,
    placed: &Placed,
    words: &W,
    k: u64,
    t: u64,
    range: u64,
) -> Result<Verdict, Fail> {
    let Placed {
        design,
        grid,
        fixed,
        placement,
    } = placed;
    if !is_legal(design, grid, fixed, placement) {
        return Err(Fail::from("no legal placement"));
    }
    let cost = EdgeBoxes::new(alloc, design, grid, placement)?;
    let view = View {
        design,
        grid,
        fixed,
        placement,
        cost: &cost,
        words,
        t,
        range,
    };
    let verdict = judge(alloc, &view, k)?;
    let without_marks = Decision {
        swap: verdict.swap,
        delta: verdict.delta,
        accepted: verdict.accepted,
    };
    if decide(&view, k) != without_marks {
        return Err(Fail::from("decided and judged are two"));
    }
    let four = words.move_words(k);
    let proposal = propose(design, grid, fixed, placement, range, four);
    if weigh(&view, proposal, four[3]) != without_marks {
        return Err(Fail::from("weighed and judged are two"));
    }
    Ok(verdict)
}

// The words of one move, with these start words.
fn one_move(alloc: Global, starts: &[u32], words: [u32; 4]) -> Result<ListWords, AllocError> {
    let mut moves = Vec::new(alloc);
    moves.push(words)?;
    Ok(ListWords {
        starts: Vec::from_slice(alloc, starts)?,
        moves,
    })
}

// The line of a move.
fn line_at<W: Words>(
    alloc: Global,
    placed: &Placed,
    words: &W,
    k: u64,
    t: u64,
    range: u64,
) -> Result<String, Fail> {
    let verdict = judged(alloc, placed, words, k, t, range)?;
    Ok(line_of(alloc, &verdict)?)
}

// The line of a first move by these words, in a range of 2.
fn told_first(alloc: Global, placed: &Placed, words: [u32; 4], t: u64) -> Result<String, Fail> {
    let words = one_move(alloc, &[], words)?;
    line_at(alloc, placed, &words, 0, t, 2000)
}

// A clock pad and two logic blocks on an array of 2 by 2, on the first of their sites.
fn clock_and_two(alloc: Global) -> Result<Placed, Fail> {
    let arch = b"io_rat 1\ninpin class: 0 global top\n";
    let net =
        b".global clk\n.input ck\npinlist: clk\n.clb b1\npinlist: clk\n.clb b2\npinlist: clk\n";
    let words = one_move(alloc, &[], [0; 4])?;
    placed_at_start(alloc, arch, net, Grid::new(2, 2, 1)?, &words)
}

// Two logic blocks on an array of 2 by 2, each driving a net of its own.
fn two_drivers(alloc: Global, starts: &[u32]) -> Result<Placed, Fail> {
    let arch = b"io_rat 1\noutpin class: 0 top\n";
    let net = b".clb b1\npinlist: x\n.clb b2\npinlist: y\n";
    let words = one_move(alloc, starts, [0; 4])?;
    placed_at_start(alloc, arch, net, Grid::new(2, 2, 1)?, &words)
}

// The two, b1 on (2, 1) and b2 on (1, 1).
fn two_beside(alloc: Global) -> Result<Placed, Fail> {
    two_drivers(alloc, &[QUARTER, 0])
}

// The two next to each other, with b2 fixed.
fn second_fixed(alloc: Global) -> Result<Placed, Fail> {
    let mut placed = two_beside(alloc)?;
    fix(&mut placed, 1)?;
    Ok(placed)
}

// All blocks fixed.
fn all_fixed(alloc: Global) -> Result<Placed, Fail> {
    let mut placed = second_fixed(alloc)?;
    fix(&mut placed, 0)?;
    Ok(placed)
}

fn empty(alloc: Global) -> Result<Placed, Fail> {
    let words = one_move(alloc, &[], [0; 4])?;
    placed_at_start(
        alloc,
        b"io_rat 1\noutpin class: 0 top\n",
        b"",
        Grid::new(1, 1, 1)?,
        &words,
    )
}

#[test]
fn changes_are_accepted_by_the_tables(rt: HostRuntime) {
    for (delta, t, w, wanted) in [
        (10000, 10000, 1_580_028_273, true),
        (10000, 10000, 1_580_028_274, false),
        // the chance is 778801 millionths
        (2500, 10000, 3_344_924_825, true),
        (2500, 10000, 3_344_924_826, false),
        // a chance of 0 between two that are not
        (149_375, 10000, 0, false),
        (140_000, 10000, 0, true),
        (15, 1, 0, false),
        (150_000, 10000, 0, false),
        (16_106_127_360, 1_073_741_824, 0, false),
        (4_611_686_018_427_387_900, 307_445_734_561_825_860, 0, false),
        (1, 1_073_741_824, MOST, true),
        (1, 0, 0, false),
        (0, 0, MOST, true),
        (-1, 0, MOST, true),
        (i64::MAX, 1, 0, false),
        (i64::MAX, u64::MAX, 0, true),
    ] {
        assert_eq!(rt; accepts(delta, t, w), wanted, "{delta} at {t} by {w}");
    }
}

// Whether the line of a first move by these words, in a range of 2, is `wanted` at each temperature.
fn is_told(
    alloc: Global,
    placed: &Placed,
    words: [u32; 4],
    temperatures: &[u64],
    wanted: &str,
) -> Result<bool, Fail> {
    for t in temperatures {
        if told_first(alloc, placed, words, *t)?.as_str() != wanted {
            return Ok(false);
        }
    }
    Ok(true)
}

#[test]
fn two_blocks_change_places(rt: HostRuntime) -> Result<(), Fail> {
    let alloc = rt.alloc();
    let words = [HALF, HALF, HALF, 0];
    let wanted = "b1 1.1.0 2.2.0 b2 0 yes: 2.2.0 b1 b2";
    let placed = clock_and_two(alloc)?;
    let is_so = is_told(alloc, &placed, words, &[0, 1, 1_000_000], wanted);
    drop(placed);
    assert!(rt; is_so?);
    Ok(())
}

#[test]
fn words_choose_block_and_target(rt: HostRuntime) -> Result<(), Fail> {
    let alloc = rt.alloc();
    let placed = two_drivers(alloc, &[])?;
    let alone = swap(0, site(1, 1, 0), site(2, 1, 0), None);
    assert_eq!(rt;
        proposed(&placed, 2000, [0, HALF, 0, 0]),
        Some(Proposal::Move(alone))
    );
    let alone = swap(1, site(2, 2, 0), site(2, 1, 0), None);
    assert_eq!(rt;
        proposed(&placed, 2000, [HALF, HALF, 0, 0]),
        Some(Proposal::Move(alone))
    );
    assert_eq!(rt;
        proposed(&placed, 2000, [0; 4]),
        Some(Proposal::Void(BlockId(0), site(1, 1, 0)))
    );
    Ok(())
}

#[test]
fn a_pad_goes_round_the_corner(rt: HostRuntime) -> Result<(), Fail> {
    let placed = clock_and_two(rt.alloc())?;
    let stays = Proposal::Void(BlockId(0), site(0, 1, 0));
    let up = Proposal::Move(swap(0, site(0, 1, 0), site(0, 2, 0), None));
    let round = Proposal::Move(swap(0, site(0, 1, 0), site(1, 0, 0), None));
    for (word, wanted) in [(0, stays), (HALF, up), (MOST, round)] {
        assert_eq!(rt; proposed(&placed, 1999, [0, word, 0, 0]), Some(wanted));
    }
    Ok(())
}

#[test]
fn a_fixed_logic_block_stays(rt: HostRuntime) -> Result<(), Fail> {
    let alloc = rt.alloc();
    let fixed = second_fixed(alloc)?;
    let held = Proposal::Void(BlockId(0), site(1, 1, 0));
    assert_eq!(rt; proposed(&fixed, 2000, [0; 4]), Some(held));
    // Every word picks the only block that may move.
    assert_eq!(rt; proposed(&fixed, 2000, [MOST, 0, 0, 0]), Some(held));
    let wanted = "b0 2.1.0 1.2.0 0 yes: 1.2.0 b0 n0";
    let is_so = is_told(alloc, &fixed, [0, 0, HALF, 0], &[0], wanted);
    drop(fixed);
    assert!(rt; is_so?);
    Ok(())
}

#[test]
fn a_block_that_is_only_begun_is_swapped(rt: HostRuntime) -> Result<(), Fail> {
    let alloc = rt.alloc();
    let wanted = "b0 2.1.0 1.1.0 b1 0 yes: 1.1.0 b0 n0 b1 n1";
    let begun = two_beside(alloc)?;
    let is_so = is_told(alloc, &begun, [0; 4], &[0], wanted);
    drop(begun);
    assert!(rt; is_so?);
    Ok(())
}

#[test]
fn nothing_is_proposed_where_no_block_may_move(rt: HostRuntime) -> Result<(), Fail> {
    let alloc = rt.alloc();
    let nothing = Some(Proposal::Nothing);
    let fixed = all_fixed(alloc)?;
    assert_eq!(rt; proposed(&fixed, 2000, [HALF; 4]), nothing);
    drop(fixed);
    let words = one_move(alloc, &[], [0; 4])?;
    let none = empty(alloc)?;
    assert_eq!(rt; proposed(&none, 2000, [HALF; 4]), nothing);
    let judged = judged(alloc, &none, &words, 7, 10000, 1000);
    drop(none);
    let verdict = judged?;
    assert_eq!(rt; verdict.k, 7);
    assert_eq!(rt; line_of(alloc, &verdict)?.as_str(), "- 0 no:");
    Ok(())
}

// The first words of the published vectors of the cipher with eight rounds (J. Strombergson): no bit set, and one bit
// of the key.
#[test]
fn words_of_the_published_vectors(rt: HostRuntime) {
    let none = [0x2fef003e, 0xd6405f89, 0xe8b85b7f, 0xa1a5091f];
    let first = [0xa0e95ecf, 0x61a94a49, 0xedd5053e, 0x4b805b72];
    assert_eq!(rt; StreamWords::new(0).move_words(0), none);
    assert_eq!(rt; StreamWords::new(1).move_words(0), first);
}

// The published vector with one bit of the stream's number set.
#[test]
fn start_words_of_a_published_vector(rt: HostRuntime) {
    let words = StreamWords::new(0);
    for (i, wanted) in [
        (0, 0xb34b8f2b),
        (1, 0xca068379),
        (2, 0x7cd43051),
        (3, 0xd14e8d4f),
        (4, 0xcceda03a),
        (5, 0x4269bec1),
        (6, 0xecae0f09),
        (7, 0x9b59d7a0),
        (8, 0x61fef07f),
        (9, 0xa05ab26b),
        (10, 0xfdd63a15),
        (11, 0x49958bc8),
        (12, 0x2624c203),
        (13, 0x7bb978d4),
        (14, 0xb1f9b822),
        (15, 0x06cf00db),
    ] {
        assert_eq!(rt; words.start_word(i), wanted, "at {i}");
    }
}

// Computed by another program: a slow placer in another language.
#[test]
fn words_of_moves(rt: HostRuntime) {
    const FAR: u64 = 1 << 60;
    const HALFWAY: u64 = 1 << 63;
    for (seed, k, wanted) in [
        (
            0,
            0,
            [804_192_318, 3_594_542_985, 3_904_396_159, 2_711_947_551],
        ),
        (
            0,
            1,
            [234_532_562, 1_371_645_418, 1_826_294_463, 2_913_333_761],
        ),
        (
            0,
            4095,
            [3_150_162_334, 3_336_382_603, 1_577_205_870, 1_596_799_189],
        ),
        (
            0,
            FAR,
            [2_502_978_294, 3_432_104_282, 3_128_458_249, 2_263_547_985],
        ),
        (
            0,
            HALFWAY,
            [2_664_845_945, 2_297_053_815, 3_300_257_052, 3_692_838_393],
        ),
        (
            1,
            0,
            [2_699_648_719, 1_638_484_553, 3_990_160_702, 1_266_703_218],
        ),
        (
            1,
            1,
            [2_103_063_988, 1_737_022_867, 1_139_187_208, 1_972_734_805],
        ),
        (
            1,
            4095,
            [3_089_548_674, 2_498_944_549, 2_732_696_682, 1_918_800_609],
        ),
        (
            1,
            FAR,
            [191_647_844, 3_363_578_242, 1_924_963_590, 1_119_746_080],
        ),
        (
            1,
            HALFWAY,
            [2_201_509_342, 3_041_701_012, 3_400_174_717, 165_445_132],
        ),
        (
            u64::MAX,
            0,
            [577_849_543, 3_025_045_049, 2_693_900_732, 999_971_585],
        ),
        (
            u64::MAX,
            1,
            [3_089_263_663, 2_545_582_257, 226_994_126, 2_124_029_422],
        ),
        (
            u64::MAX,
            4095,
            [3_483_502_466, 3_033_327_304, 1_305_246_377, 1_004_241_248],
        ),
        (
            u64::MAX,
            FAR,
            [3_980_251_829, 3_728_234_417, 1_172_380_933, 897_246_039],
        ),
        (
            u64::MAX,
            HALFWAY,
            [2_601_059_663, 2_435_434_427, 1_916_891_677, 2_956_603_628],
        ),
    ] {
        assert_eq!(rt;
            StreamWords::new(seed).move_words(k),
            wanted,
            "move {k} of seed {seed}"
        );
    }
}

// Whether the words of nine moves at once are those of each.
fn agree<W: Words>(words: &W, first: u64) -> bool
    requires { first < 1000 }
{
    let mut run = [[1; 4]; 9];
    words.fill_words(first, &mut run);
    words.fill_words(first, &mut run[..0]);
    let mut is_so = true;
    for (i, four) in run.iter().enumerate() {
        is_so = is_so && *four == words.move_words(first + i as u64);
    }
    is_so
}

// Whether a hundred start words at once are those that are asked for one by one.
fn agree_at_start<W: Words>(words: &W, first: u32) -> bool
    requires { first < 1000 }
{
    let mut run = [1; 100];
    words.fill_starts(first, &mut run);
    words.fill_starts(first, &mut run[..0]);
    let mut is_so = true;
    for (i, word) in run.iter().enumerate() {
        is_so = is_so && *word == words.start_word(first + i as u32);
    }
    is_so
}

#[test]
fn a_hundred_start_words_at_once(rt: HostRuntime) -> Result<(), Fail> {
    let mut starts = Vec::new(rt.alloc());
    for i in 0..60 {
        starts.push(1000 - i)?;
    }
    let listed = ListWords {
        starts,
        moves: Vec::new(rt.alloc()),
    };
    for first in [0, 5, 64] {
        assert!(rt; agree_at_start(&StreamWords::new(3), first));
        assert!(rt; agree_at_start(&listed, first));
    }
    Ok(())
}

#[test]
fn words_of_nine_moves_at_once(rt: HostRuntime) -> Result<(), Fail> {
    let alloc = rt.alloc();
    let mut moves = Vec::new(alloc);
    for k in 0..9 {
        moves.push([k, 10 * k, 7, HALF])?;
    }
    let listed = ListWords {
        starts: Vec::new(alloc),
        moves,
    };
    assert!(rt; agree(&StreamWords::new(3), 5));
    assert!(rt; agree(&listed, 5));
    Ok(())
}

// Computed by the same slow placer.
#[test]
fn words_of_starts(rt: HostRuntime) {
    for (seed, i, wanted) in [
        (0, 0, 3_008_073_515),
        (0, 15, 114_229_467),
        (0, 16, 4_225_698_631),
        (0, 1000, 3_346_793_786),
        (0, MOST, 505_525_769),
        (1, 0, 2_356_144_660),
        (1, 15, 741_203_933),
        (1, 16, 1_815_660_938),
        (1, 1000, 3_944_991_410),
        (1, MOST, 2_562_504_373),
        (u64::MAX, 0, 3_947_020_024),
        (u64::MAX, 15, 1_095_201_957),
        (u64::MAX, 16, 279_235_599),
        (u64::MAX, 1000, 906_894_115),
        (u64::MAX, MOST, 4_108_182_387),
    ] {
        assert_eq!(rt;
            StreamWords::new(seed).start_word(i),
            wanted,
            "word {i} of seed {seed}"
        );
    }
}

fn push_site(line: &mut String, alloc: Global, site: Site) -> Result<(), AllocError> {
    let text = format!(in alloc; "{}.{}.{}", site.x, site.y, site.sub)?;
    line.push_str(text.as_str())
}

fn push_number(
    line: &mut String,
    alloc: Global,
    before: &str,
    number: u32,
) -> Result<(), AllocError> {
    let text = format!(in alloc; "{before}{number}")?;
    line.push_str(text.as_str())
}

fn push_mark(line: &mut String, alloc: Global, mark: Mark) -> Result<(), AllocError> {
    line.push_str(" ")?;
    match mark {
        Mark::Block(block) => push_number(line, alloc, "b", block.0),
        Mark::Place(site) => push_site(line, alloc, site),
        Mark::Net(net) => push_number(line, alloc, "n", net.0),
    }
}

fn push_swap(line: &mut String, alloc: Global, swap: Swap) -> Result<(), AllocError> {
    push_number(line, alloc, "b", swap.block.0)?;
    line.push_str(" ")?;
    push_site(line, alloc, swap.from)?;
    line.push_str(" ")?;
    push_site(line, alloc, swap.to)?;
    match swap.other {
        Some(other) => push_number(line, alloc, " b", other.0),
        None => Ok(()),
    }
}

// The swap, the change of cost, whether it is accepted, and the marks.
fn line_of(alloc: Global, verdict: &Verdict) -> Result<String, AllocError> {
    let mut line = String::new(alloc);
    match verdict.swap {
        Some(swap) => push_swap(&mut line, alloc, swap)?,
        None => line.push_str("-")?,
    }
    let answer = if verdict.accepted { "yes" } else { "no" };
    let told = format!(in alloc; " {} {answer}:", verdict.delta)?;
    line.push_str(told.as_str())?;
    for mark in verdict.footprint.as_slice() {
        push_mark(&mut line, alloc, *mark)?;
    }
    Ok(line)
}

// Eleven blocks on an array of 4 by 3. One pad and two logic blocks are fixed.
fn eleven_blocks(alloc: Global, words: &StreamWords) -> Result<Placed, Fail> {
    let arch = b"io_rat 2\ninpin class: 0 left\ninpin class: 0 top\noutpin class: 1 right\n";
    let net =
        b".global clk\n.input ck\npinlist: clk\n.input a\npinlist: a\n.output z\npinlist: p\n.output y\npinlist: q\n.clb p\npinlist: a a p\n.clb q\npinlist: p clk q\n.clb r\npinlist: a q r\n.clb s\npinlist: r p s\n.clb t\npinlist: s t t\n.clb u\npinlist: open t u\n.clb v\npinlist: u open open\n";
    let mut placed = placed_at_start(alloc, arch, net, Grid::new(4, 3, 2)?, words)?;
    fix_each(&mut placed, &[2, 5, 9])?;
    Ok(placed)
}

// The temperature and the range of a move in the table.
fn setting_of(k: u64) -> (u64, u64) {
    let t = match k / 4 % 4 {
        0 => 0,
        1 => 4000,
        2 => 20_000,
        _ => 1_000_000,
    };
    let range = match k % 4 {
        0 => 1000,
        1 => 1999,
        2 => 2500,
        _ => 4000,
    };
    (t, range)
}

fn push_lines(
    alloc: Global,
    placed: &Placed,
    words: &StreamWords,
    lines: &mut String,
) -> Result<(), Fail> {
    for k in 0..200 {
        let (t, range) = setting_of(k);
        let line = line_at(alloc, placed, words, k, t, range)?;
        lines.push_str(line.as_str())?;
        lines.push_str("\n")?;
    }
    Ok(())
}

// The lines of the first 200 moves.
fn lines(alloc: Global) -> Result<String, Fail> {
    let words = StreamWords::new(5);
    let placed = eleven_blocks(alloc, &words)?;
    let mut lines = String::new(alloc);
    push_lines(alloc, &placed, &words, &mut lines)?;
    Ok(lines)
}

#[test]
fn judgements_are_those_of_another_placer(rt: HostRuntime) -> Result<(), Fail> {
    let told = lines(rt.alloc())?;
    assert_eq!(rt; told.as_str(), wanted_lines());
    Ok(())
}
