// Document 01's tasks, by step: what it needs, what it sets and what it costs. No step clears a
// fact.
use task::{Sizes, Tables};

/// The first task: badge read 0, project picked 1, project set 2, tube racked 3, spectrum filed 4;
/// step 2 carries a project over. From nothing to the spectrum filed (P1 to P4).
pub const FIRST: Tables<'static> = Tables {
    sizes: Sizes { facts: 5, steps: 5 },
    needs: &[0, 0, 0, 0, 1, 0, 0, 0, 1, 0, 0, 0, 1, 0, 0, 0, 12, 0, 0, 0],
    sets: &[1, 0, 0, 0, 6, 0, 0, 0, 4, 0, 0, 0, 8, 0, 0, 0, 16, 0, 0, 0],
    clears: &[0; 20],
    costs: &[1, 3, 1, 2, 1],
    start: &[0, 0, 0, 0],
    goal: &[16, 0, 0, 0],
};

/// The task of source document 001 (P5, P6).
pub const SECOND: Tables<'static> = Tables {
    sizes: Sizes { facts: 5, steps: 4 },
    needs: &[1, 0, 0, 0, 1, 0, 0, 0, 1, 0, 0, 0, 14, 0, 0, 0],
    sets: &[6, 0, 0, 0, 10, 0, 0, 0, 12, 0, 0, 0, 16, 0, 0, 0],
    clears: &[0; 16],
    costs: &[3, 4, 5, 0],
    start: &[1, 0, 0, 0],
    goal: &[16, 0, 0, 0],
};

/// The first task with a goal that holds from the start (P7).
pub const GOAL_IN_START: Tables<'static> = Tables {
    start: &[6, 0, 0, 0],
    goal: &[4, 0, 0, 0],
    ..FIRST
};

/// No steps, and a goal fact that is not in the start (P8).
pub const NO_STEPS: Tables<'static> = Tables {
    sizes: Sizes { facts: 2, steps: 0 },
    needs: &[],
    sets: &[],
    clears: &[],
    costs: &[],
    start: &[1, 0, 0, 0],
    goal: &[2, 0, 0, 0],
};

/// Two steps without needs, which cost 2 and 3 and both set the goal (P9).
pub const EITHER_STEP: Tables<'static> = Tables {
    sizes: Sizes { facts: 1, steps: 2 },
    needs: &[0; 8],
    sets: &[1, 0, 0, 0, 1, 0, 0, 0],
    clears: &[0; 8],
    costs: &[2, 3],
    start: &[0, 0, 0, 0],
    goal: &[1, 0, 0, 0],
};

/// One step without needs, which sets the goal and one fact more (P10).
pub const ONE_FACT_MORE: Tables<'static> = Tables {
    sizes: Sizes { facts: 2, steps: 1 },
    needs: &[0; 4],
    sets: &[3, 0, 0, 0],
    clears: &[0; 4],
    costs: &[1],
    start: &[0, 0, 0, 0],
    goal: &[1, 0, 0, 0],
};
