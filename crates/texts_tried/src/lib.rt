//! The lines of a script, and the texts of what it prints, on worked cases.
#![tactic(auto)]

#[cfg(test)]
mod of_report_text;
#[cfg(test)]
mod of_script_text;
