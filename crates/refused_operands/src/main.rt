// Forged plans of a scatter with an operand: each number of the operand's layout changed in turn, past the rank as well, and the whole
// plan that stands where compile refused. A call with such a plan is refused by 8 and leaves the destination as it was; so is one whose
// operand has another layout, and 9 names the operand as view 1. Last, a plan whose two cells share an element, with 4 not tried: the last
// cell copied stays, and both updates land on it.
#![tactic(auto)]

use changed_plans::trials::{put_called, try_layout, view};
use layout::View;
use operand_plan::CompiledOperand;
use operand_trials::{BEFORE, Forged, OPERAND, compile};
use std::io;

// The plan as compile gave it, on an operand of this view.
fn on_view(
    rt: &impl Print,
    name: &str,
    compiled: CompiledOperand,
    operand: View,
    from: &[i32],
) -> io::Result<()> {
    let mut into = BEFORE;
    let told = Forged::new(compiled).call_on_operand(operand, from, &mut into);
    put_called(rt, name, told, &into)?;
    println!(rt; "  a {}", layout::first_number(told.answer))
}

fn put_compiled(rt: &impl Print, name: &str, compiled: CompiledOperand) -> io::Result<()> {
    let answer = compiled.scatter.answer;
    println!(rt;
        "{name}: answer {} {} {}",
        layout::number(answer),
        layout::first_number(answer),
        layout::second_number(answer)
    )
}

fn shared(rt: &impl Print) -> io::Result<()> {
    put_compiled(
        rt,
        "compile into [2] with stride 0",
        operand_trials::shared(),
    )?;
    let mut into = [5i32];
    let told = operand_trials::shared_again().call_on_shared(&[70, 80], &mut into);
    put_called(rt, "the plan with 4 not tried", told, &into)
}

fn main(rt: HostRuntime) -> io::Result<()> {
    let compiled = compile(2);
    let operand = view(&[3, 2], &[2, 1]);
    on_view(&rt, "the compiled plan", compiled, operand, &OPERAND)?;
    try_layout(&rt, Forged::new(compiled), "operand", |f| &mut f.operand)?;
    on_view(
        &rt,
        "an operand of another layout",
        compiled,
        view(&[3, 2], &[1, 3]),
        &OPERAND,
    )?;
    on_view(
        &rt,
        "an operand one element short",
        compiled,
        operand,
        &OPERAND[..5],
    )?;
    let refused = compile(3);
    put_compiled(&rt, "compile with an operand of [3, 3]", refused)?;
    on_view(
        &rt,
        "the plan that stands there",
        refused,
        view(&[], &[]),
        &OPERAND,
    )?;
    shared(&rt)
}
