//! Lists of challenges and authentication infos with what they read as, and challenges written out.
#![tactic(auto)]

#[cfg(test)]
mod readings;
#[cfg(test)]
mod writings;
