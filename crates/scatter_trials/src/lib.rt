// A scatter called with plans and rows that may be changed: destination [3,2] holding 1 to 6, windows [2,1] whose second axis
// is inserted, starts [9,0] and [0,-1].
#![tactic(auto)]

use changed_plans::trials::{Outcome, Trial, view};
use layout::{CallAnswer, RAW_FUSED_RANK_LIMIT, View};
use rules::Rule;
use scatter_plan::{CompiledScatter, ScatterPlan};

// The rows of a walk: two steps and two resets for each axis.
pub type Rows = [[i64; 4]; RAW_FUSED_RANK_LIMIT];

// What the destination holds before each call.
pub const BEFORE: [i32; 6] = [1, 2, 3, 4, 5, 6];

// A plan with the rows of its batches and of its windows.
#[derive(Clone, Copy)]
pub struct Forged {
    pub plan: ScatterPlan,
    pub batch_rows: Rows,
    pub window_rows: Rows,
}

impl Forged {
    // As compile gave them.
    pub fn new(compiled: CompiledScatter) -> Forged {
        let plan = compiled.plan;
        let batch_rows = replay::rows_of(compiled.batch_axes);
        let window_rows = replay::rows_of(compiled.window_axes);
        Forged {
            plan,
            batch_rows,
            window_rows,
        }
    }

    fn call_on(
        &self,
        index: View,
        updates: View,
        dest: View,
        starts: &[i64],
        source: &[i32],
        into: &mut [i32],
    ) -> CallAnswer {
        scatter::scatter_i32(
            Rule::Add,
            self.plan,
            self.batch_rows,
            self.window_rows,
            index,
            updates,
            dest,
            starts,
            source,
            into,
        )
    }

    // The call on the views of the scatter, with updates 3 4 and 5 6.
    pub fn call_on_views(&self, into: &mut [i32]) -> CallAnswer {
        let square = view(&[2, 2], &[1, 2]);
        let dest = view(&[3, 2], &[1, 3]);
        self.call_on(square, square, dest, &[9, 0, 0, -1], &[3, 4, 5, 6], into)
    }

    // The call on views of no axes, as the plan has them that stands where compile refused.
    pub fn call_on_scalars(&self, into: &mut [i32]) -> CallAnswer {
        let scalar = view(&[], &[]);
        self.call_on(scalar, scalar, scalar, &[9, 0, 0, -1], &[3, 4, 5, 6], into)
    }

    // The call on the views of `shared`, with updates 3 4 on starts 0 1.
    pub fn call_on_shared(&self, into: &mut [i32]) -> CallAnswer {
        let line = view(&[2], &[1]);
        self.call_on(line, line, view(&[2], &[0]), &[0, 1], &[3, 4], into)
    }
}

impl Trial for Forged {
    fn call(self) -> Outcome {
        let mut into = BEFORE;
        let told = self.call_on_views(&mut into);
        Outcome {
            told,
            unchanged: into == BEFORE,
        }
    }
}

// The scatter, whose windows have this many cells.
pub fn compile(window: u64) -> CompiledScatter {
    scatter_plan::compile(
        &[2, 2],
        &[1, 2],
        &[window, 2],
        &[1, 2],
        &[3, 2],
        &[1, 3],
        &[0],
        &[1],
        &[0, 1],
        0,
    )
}

// One update for each start, into a destination [2] with stride 0: compiled, and compiled with 4 not tried.
pub fn shared() -> CompiledScatter {
    scatter_plan::compile(&[2], &[1], &[2], &[1], &[2], &[0], &[], &[0], &[0], 1)
}

pub fn shared_again() -> CompiledScatter {
    scatter_plan::compile_again(&[2], &[1], &[2], &[1], &[2], &[0], &[], &[0], &[0], 1)
}
