// A scatter with an operand called with plans whose operand's layout may be changed: operand [3,2] in the other order, destination [3,2]
// holding 1 to 6, windows [2,1] whose second axis is inserted.
#![tactic(auto)]

use changed_plans::trials::{Outcome, Trial, view};
use layout::{CallAnswer, Layout, View};
use operand_plan::{CompiledOperand, OperandPlan};
use rules::Rule;
use scatter_plan::CompiledScatter;

// What the operand holds, and the destination before each call.
pub const OPERAND: [i32; 6] = [10, 20, 30, 40, 50, 60];

pub const BEFORE: [i32; 6] = [1, 2, 3, 4, 5, 6];

// The layout that a plan has for its operand, and the scatter that compile gave.
#[derive(Clone, Copy)]
pub struct Forged {
    pub operand: Layout,
    pub scatter: CompiledScatter,
}

impl Forged {
    // As compile gave them.
    pub fn new(compiled: CompiledOperand) -> Forged {
        let operand = compiled.operand;
        let scatter = compiled.scatter;
        Forged { operand, scatter }
    }

    fn call_on(
        &self,
        operand: View,
        index: View,
        updates: View,
        dest: View,
        from: &[i32],
        starts: &[i64],
        source: &[i32],
        into: &mut [i32],
    ) -> CallAnswer {
        let held = self.operand;
        let scatter = self.scatter.plan;
        operand_scatter::scatter_i32(
            Rule::Add,
            OperandPlan {
                operand: held,
                scatter,
            },
            replay::rows_of(self.scatter.batch_axes),
            replay::rows_of(self.scatter.window_axes),
            operand,
            index,
            updates,
            dest,
            from,
            starts,
            source,
            into,
        )
    }

    // The call with an operand of this view: starts [9,0] and [0,-1], updates 3 4 and 5 6.
    pub fn call_on_operand(&self, operand: View, from: &[i32], into: &mut [i32]) -> CallAnswer {
        let square = view(&[2, 2], &[1, 2]);
        self.call_on(
            operand,
            square,
            square,
            view(&[3, 2], &[1, 3]),
            from,
            &[9, 0, 0, -1],
            &[3, 4, 5, 6],
            into,
        )
    }

    // The call on the views of `shared`: starts 0 1 and updates 3 4.
    pub fn call_on_shared(&self, from: &[i32], into: &mut [i32]) -> CallAnswer {
        let line = view(&[2], &[1]);
        self.call_on(
            line,
            line,
            line,
            view(&[2], &[0]),
            from,
            &[0, 1],
            &[3, 4],
            into,
        )
    }
}

impl Trial for Forged {
    fn call(self) -> Outcome {
        let mut into = BEFORE;
        let told = self.call_on_operand(view(&[3, 2], &[2, 1]), &OPERAND, &mut into);
        Outcome {
            told,
            unchanged: into == BEFORE,
        }
    }
}

// Operand [3,last] in the other order, destination [3,2], windows [2,1] whose second axis is inserted.
pub fn compile(last: u64) -> CompiledOperand {
    operand_plan::compile(
        &[3, last],
        &[2, 1],
        &[2, 2],
        &[1, 2],
        &[2, 2],
        &[1, 2],
        &[3, 2],
        &[1, 3],
        &[0],
        &[1],
        &[0, 1],
        0,
    )
}

// A destination [2] with stride 0 under an operand [2]: compiled, and with 4 not tried.
pub fn shared() -> CompiledOperand {
    operand_plan::compile(
        &[2],
        &[1],
        &[2],
        &[1],
        &[2],
        &[1],
        &[2],
        &[0],
        &[],
        &[0],
        &[0],
        1,
    )
}

pub fn shared_again() -> Forged {
    let scatter = scatter_plan::compile_again(
        &[2],
        &[1],
        &[2],
        &[1],
        &[2],
        &[0],
        &[],
        &[0],
        &[0],
        1,
    );
    let operand = view(&[2], &[1]).layout;
    Forged { operand, scatter }
}
