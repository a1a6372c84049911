//! The tests by what they try: catalogues and logs, orders, limits, and readers and writers that fail.

mod edges;
mod files;
mod limits;
mod orders;
mod reading;
