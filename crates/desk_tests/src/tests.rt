mod budgets;
mod desks;
mod halls;
mod histories;
mod journals;
mod menus;
mod readers;
