// Tables of octets, of what nodes send and of what the register sends, for the crates that read and write them.
#![tactic(auto)]

#[cfg(test)]
mod accepted;
#[cfg(test)]
mod answers;
#[cfg(test)]
mod arguments;
#[cfg(test)]
mod invokes;
#[cfg(test)]
mod invoking;
#[cfg(test)]
mod made;
#[cfg(test)]
mod messages;
#[cfg(test)]
mod numbering;
#[cfg(test)]
mod refused;
#[cfg(test)]
mod values;
