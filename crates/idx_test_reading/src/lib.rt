//! Questions in rounds, beside a writer's seat; the memory of blocks that fall out; and the turn of one owner.
#![tactic(auto)]

#[cfg(test)]
mod beside;
#[cfg(test)]
mod blocks;
#[cfg(test)]
mod rounds;
#[cfg(test)]
mod turn;
#[cfg(test)]
mod wide;
