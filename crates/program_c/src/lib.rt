// The programs for C, with an exit status: native/plan.c and native/tidy.c call them.
#![tactic(auto)]

// The status of the program that plans: 0 if all of the text was written, else 1.
#[unsafe(no_mangle)]
pub extern "C" fn gz_program() -> i32 {
    if program::run() { 0 } else { 1 }
}

// The status of the program that tidies: 0 if a copy was written, else 1.
#[unsafe(no_mangle)]
pub extern "C" fn gz_tidy_program() -> i32 {
    if program::tidying::run() { 0 } else { 1 }
}
