// The C entry points: thin functions over the library's calls. native/include/gazrieksne.h documents them. C takes numbers for answers, the fields of
// a struct one by one, and a name for each call: that is why these functions look alike.
#![tactic(auto)]

mod bills; // bills.rt: gz_bill
mod checks; // checks.rt: gz_check
mod copies; // copies.rt: gz_tidy
mod edits; // edits.rt: gz_edit
mod plans; // plans.rt: gz_plan, gz_keep, gz_bound
mod reads; // reads.rt: gz_read, gz_service, gz_cabinet, gz_stream, gz_barred
mod weighs; // weighs.rt: gz_weigh
