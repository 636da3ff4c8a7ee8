// The program with no exit status of its own: native/plan.c gives one.
#![tactic(auto)]

fn main() {
    program::run();
}
