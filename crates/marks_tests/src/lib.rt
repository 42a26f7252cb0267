//! Tests of the lens of marks, on a language in which a constructor looks at its child at another input.
#![tactic(auto)]

#[cfg(test)]
mod marks;
