// The exports that stand over a record where it lies: from what their steps gave to what the call answers and leaves. Laws only, no function.
#![tactic(auto)]
