// The program that tidies, with no exit status of its own: native/tidy.c gives one.
#![tactic(auto)]

fn main() {
    program::tidying::run();
}
