//! Only tests: what each layer from the settings to the audit of rows answers by itself, through its public
//! calls.
#![tactic(auto)]

#[cfg(test)]
mod advice;
#[cfg(test)]
mod asks;
#[cfg(test)]
mod audited;
#[cfg(test)]
mod plain;
#[cfg(test)]
mod settings;
#[cfg(test)]
mod standing_rows;
