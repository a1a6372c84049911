// What several queries are. Each function is there for its clause alone.
ghost use Rattle.tk_multi.specs.Laws.{EachQueryIsAsAlone, OneWorldForEachQuery, WatchedObjectKeepsItsName};
ghost use Rattle.tk_multi.specs.Watched.{QueryCountsWhatTheLogsCount, QuerysSetHoldsOverTheLogs};

/// After any list of events each query stands where a world of it alone stands after the projection of these events to
/// it; and there are as many worlds as queries.
pub fn each_query_is_as_alone()
    ensures alone { EachQueryIsAsAlone }
    ensures count { OneWorldForEachQuery }
{}

/// A watched object has one name, by its number among all objects and by its number among those that are watched.
pub fn a_watched_object_keeps_its_name()
    ensures { WatchedObjectKeepsItsName }
{}

/// At each cut of the common logs a query counts of an object that it watches, at its own cut there, what these logs count of
/// it; and each cut of its own is one there, so a set that is valid over its logs holds over fronts of the common ones.
pub fn a_query_counts_what_the_logs_count()
    ensures total { QueryCountsWhatTheLogsCount }
    ensures set { QuerysSetHoldsOverTheLogs }
{}
