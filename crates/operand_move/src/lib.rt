// Scatter with an operand: the operand's copy and then the scatter's move, for i32 and for f64.
#![tactic(auto)]

ghost use Rattle.std.specs.Float.{nan};
ghost use Rattle.std.specs.Prelude.{pos, length};
ghost use Rattle.indexing.specs.Operand.{operand_copied};
ghost use Rattle.indexing.specs.Scatter.{scattered};
ghost use Rattle.indexing.specs.Slid.{slid_scatter};
ghost use Rattle.rules.specs.Rules.{rule_i32, rule_f64};
ghost use Rattle.calls.specs.Calls.{Does, as_is};
ghost use Rattle.operand_calls.specs.Prepared.{Movable};

use layout::CallAnswer;
use operand_calls::PreparedCopy;
use rules::{Add, Ceiling, Combine, Element, Highest, Lowest, Replace, Rule, RuleF64};
use scatter_move::PreparedScatter;

// A scatter with an operand that is prepared, by a rule as a type: the operand is copied, and the updates are put on it; where it is
// refused nothing is done.
fn move_by<E: Element, R: Combine<E>>(
    rule: R,
    p: PreparedScatter,
    c: PreparedCopy,
    operand: &[E],
    starts: &[i64],
    source: &[E],
    into: &mut [E],
) -> CallAnswer
    requires { Movable p c (length operand.now) (length starts.now) (length source.now) (length into.old) }
    ensures { (k : Movable p c (length operand.now) (length starts.now) (length source.now) (length into.old)) → Does as_is p.answer (slid_scatter k.scatter starts.now) (scattered (R.combined rule) E.absent k.scatter starts.now source.now (operand_copied E.absent k.operand k.scatter.result operand.now into.old)) into.old into.new result }
{
    let answer = p.answer;
    if !layout::is_done(answer) {
        return layout::refused_call(answer);
    }
    let layout = c.layout;
    operand_copy::copy_operand(
        operand,
        into,
        layout.extents,
        layout.strides,
        c.strides,
        layout.rank,
        c.offset,
        p.dest,
    );
    scatter_move::move_by(rule, p, starts, source, into)
}

// A scatter of i32 with an operand that is prepared. The rule is asked here, once a call.
pub fn move_i32(
    rule: Rule,
    p: PreparedScatter,
    c: PreparedCopy,
    operand: &[i32],
    starts: &[i64],
    source: &[i32],
    into: &mut [i32],
) -> CallAnswer
    requires { Movable p c (length operand.now) (length starts.now) (length source.now) (length into.old) }
    ensures { (k : Movable p c (length operand.now) (length starts.now) (length source.now) (length into.old)) → Does as_is p.answer (slid_scatter k.scatter starts.now) (scattered (rule_i32 rule) (pos 0) k.scatter starts.now source.now (operand_copied (pos 0) k.operand k.scatter.result operand.now into.old)) into.old into.new result }
{
    match rule {
        Rule::Add => move_by(Add, p, c, operand, starts, source, into),
        Rule::Lowest => move_by(Lowest, p, c, operand, starts, source, into),
        Rule::Highest => move_by(Highest, p, c, operand, starts, source, into),
        Rule::Replace => move_by(Replace, p, c, operand, starts, source, into),
    }
}

// The same of f64.
pub fn move_f64(
    rule: RuleF64,
    p: PreparedScatter,
    c: PreparedCopy,
    operand: &[f64],
    starts: &[i64],
    source: &[f64],
    into: &mut [f64],
) -> CallAnswer
    requires { Movable p c (length operand.now) (length starts.now) (length source.now) (length into.old) }
    ensures { (k : Movable p c (length operand.now) (length starts.now) (length source.now) (length into.old)) → Does as_is p.answer (slid_scatter k.scatter starts.now) (scattered (rule_f64 rule) nan k.scatter starts.now source.now (operand_copied nan k.operand k.scatter.result operand.now into.old)) into.old into.new result }
{
    match rule {
        RuleF64::Add => move_by(Add, p, c, operand, starts, source, into),
        RuleF64::Lowest => move_by(Lowest, p, c, operand, starts, source, into),
        RuleF64::Highest => move_by(Highest, p, c, operand, starts, source, into),
        RuleF64::Replace => move_by(Replace, p, c, operand, starts, source, into),
        RuleF64::Ceiling(limit) => { move_by(Ceiling(limit), p, c, operand, starts, source, into) }
    }
}
