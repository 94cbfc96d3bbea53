//! The worked rows of a loop: what explains a client and what does not, whose connections are, when it drains, which
//! moments and results are handed in, how exchanges end, how a history goes on, whose streams are and which are kept,
//! and when a loop rests. Nothing of it runs.
#![tactic(auto)]

mod rows_of_accounts;
mod rows_of_clients;
mod rows_of_connections;
mod rows_of_drains;
mod rows_of_exchanges;
mod rows_of_histories;
mod rows_of_loops;
mod rows_of_moments;
mod rows_of_names;
mod rows_of_reports;
mod rows_of_rest;
mod rows_of_results;
mod rows_of_shares;
