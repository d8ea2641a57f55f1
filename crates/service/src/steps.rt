// The calls on plain tables.
mod accepting;
mod closing;
mod collecting;
mod ending;
mod making;
mod opening;
mod reserves;
